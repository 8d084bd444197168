//! Where the parts of a run begin.

ghost use Rattle.std.specs.Prelude.{◌≡◌, ◌≤◌, ◌+◌, length};
ghost use Rattle.std.specs.List.Sorted.{IsStrictlySortedBy};
ghost use Rattle.std.specs.Ordering.{nat_cmp};
ghost use Rattle.run_outputs.specs.Parts.{part_of_account};

use std::marker::Model;

/// The numbers of the accounts with which the second part of a run and each further one begins.
/// They rise.
#[derive(Drop)]
pub struct Firsts {
    numbers: Vec<u32>,
}

impl Model for Firsts {
    ghost use Rattle.std.specs.Prelude.{ℕ, List};
    ghost use Rattle.std.specs.List.Sorted.{IsStrictlySortedBy};
    ghost use Rattle.std.specs.Ordering.{nat_cmp};

    ghost Value = { List ℕ };

    ghost view = { λ firsts. firsts.numbers.items };

    ghost invariant = { λ firsts. IsStrictlySortedBy nat_cmp firsts.numbers.items };
}

impl Firsts {
    /// Those of these accounts, which rise.
    pub(crate) fn of(numbers: Vec<u32>) -> Firsts
        requires { IsStrictlySortedBy nat_cmp numbers.items }
        ensures { result ≡ numbers.items }
    {
        Firsts { numbers }
    }

    /// How many parts there are.
    pub fn part_count(&self) -> usize
        ensures { result ≡ 1 + length self.now }
    {
        1 + self.numbers.len()
    }

    /// The part of an account.
    pub fn part_of(&self, account: u32) -> usize
        ensures part { result ≡ part_of_account self.now account }
        ensures within { result ≤ length self.now }
    {
        self.numbers.partition_point(|first| *first <= account)
    }
}
