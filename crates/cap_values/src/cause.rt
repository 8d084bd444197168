//! Why a call is cleared.

ghost use Rattle.std.specs.Prelude.{◌≡◌, ◌↔◌, ◌≤◌, IsTrue, IsOk, IfOk, IfErr};
ghost use Rattle.cap_values.specs.Causes.{is_cause};

use crate::ValueFault;

/// A cause of ITU-T Q.850, as ReleaseCall carries it (GSM 09.78, Cause): 1 to 127.
#[derive(Clone, Copy, Debug, PartialEq, Eq)]
pub struct Cause {
    /// The cause's number.
    pub value: u8,
    pub ghost in_range: { IsTrue (is_cause value) },
}

impl Cause {
    ghost use Rattle.cap_values.specs.CauseValues.{unallocated_number, normal_call_clearing, call_rejected, temporary_failure};

    /// The cause of a number; else `ParameterOutOfRange`.
    pub fn new(value: u8) -> Result<Cause, ValueFault>
        ensures made { IsOk result ↔ ((1 ≤ value) × (value ≤ 127)) }
        ensures value { IfOk result (λ cause. cause.value ≡ value) }
        ensures fault { IfErr result (λ fault. fault ≡ ValueFault.ParameterOutOfRange) }
    {
        if value < 1 || value > 127 {
            return Err(ValueFault::ParameterOutOfRange);
        }
        Ok(Cause { value })
    }

    /// 1: there is no route to the number.
    pub fn unallocated_number() -> Cause
        ensures { result ≡ unallocated_number }
    {
        Cause { value: 1 }
    }

    /// 16: the call ends as its parties or the service want it.
    pub fn normal_call_clearing() -> Cause
        ensures { result ≡ normal_call_clearing }
    {
        Cause { value: 16 }
    }

    /// 21: the call isn't wanted, as for want of credit.
    pub fn call_rejected() -> Cause
        ensures { result ≡ call_rejected }
    {
        Cause { value: 21 }
    }

    /// 41: the network or the service failed.
    pub fn temporary_failure() -> Cause
        ensures { result ≡ temporary_failure }
    {
        Cause { value: 41 }
    }
}
