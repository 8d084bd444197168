//! A map by number: a list while the numbers rise.

ghost use Rattle.std.specs.Prelude.{◌≡◌, [], IfOk, IsSome, OnErr, OnOk, None, true, All, IfNone, IfSome, drop};
ghost use Rattle.std.specs.BTreeMap.{insert_entry, is_at};
ghost use Rattle.std.specs.Map.{lookup};
ghost use Rattle.std.specs.Option.{option_copied};
ghost use Rattle.std.specs.Ordering.{nat_cmp};
ghost use Rattle.account_core.specs.Listings.{IsInOrder, listed};
ghost use Rattle.account_core.specs.Rising.{AreRising, IsBelow, IsOther, StandsAt};

use std::alloc::{AllocError, Global};
use std::collections::BTreeMap;
use std::marker::Model;

/// A map by number, of values that are copied. While each new number is above all others it is a
/// list, in which a search is quickest; from the first one on that isn't, it is an ordered map, so
/// that no order of numbers takes long.
pub struct RisingMap<V: Copy> {
    form: Form<V>,
}

// Written out, since a derived one is proved field by field again wherever a map is let go.
impl<V: Copy> Drop for RisingMap<V> {
    fn drop(self) {
        let RisingMap { form: _form } = self;
    }
}

/// How the values are kept.
#[derive(Drop)]
enum Form<V: Copy> {
    /// The numbers came in rising order.
    Rising(Vec<(u64, V)>),
    /// They did not.
    Mixed(BTreeMap<u64, V>),
}

/// All of a map, by rising number.
pub enum Listing<'a, V> {
    /// It is a list.
    Rising(&'a [(u64, V)]),
    /// It is an ordered map.
    Mixed(&'a BTreeMap<u64, V>),
}

impl<V: Copy> Model for RisingMap<V> {
    ghost use Rattle.std.specs.Prelude.{ℕ, List};
    ghost use Rattle.account_core.specs.Forms.{IsOrdered, entries_of};

    ghost Value = { List (ℕ × V) };

    ghost view = { λ a. entries_of a.form };

    ghost invariant = { λ a. IsOrdered a.form };
}

impl<V: Copy> RisingMap<V> {
    /// A map of nothing. It takes no memory yet.
    pub fn new(alloc: Global) -> RisingMap<V>
        ensures { result ≡ [] }
    {
        RisingMap {
            form: Form::Rising(Vec::new(alloc)),
        }
    }

    /// The value of a number, if it has one.
    #[inline(always)]
    pub fn get(&self, number: u64) -> Option<&V>
        ensures { option_copied result ≡ lookup (is_at (nat_cmp number)) self.now }
    {
        match &self.form {
            Form::Rising(list) => {
                let place = place_of(list.as_slice(), number)?;
                Some(&list[place].1)
            }
            Form::Mixed(map) => map.get(&number),
        }
    }

    /// Gives a number this value, in place of the one that it may have. Memory is taken for a new
    /// number alone.
    #[inline(always)]
    pub fn insert(&mut self, number: u64, value: V) -> Result<(), AllocError>
        ensures inserted { OnOk result (self.new ≡ insert_entry nat_cmp self.old number value) }
        ensures kept { OnErr result (self.new ≡ self.old) }
        ensures fresh { OnErr result (lookup (is_at (nat_cmp number)) self.old ≡ None) }
    {
        match &mut self.form {
            Form::Rising(list) => {
                if let Some(place) = place_of(list.as_slice(), number) {
                    list[place].1 = value;
                } else if is_above(list.as_slice(), number) {
                    list.push((number, value))?;
                } else {
                    let map = mapped(list.as_slice(), *list.allocator(), number, value)?;
                    self.form = Form::Mixed(map);
                }
            }
            Form::Mixed(map) => {
                map.insert(number, value)?;
            }
        }
        Ok(())
    }

    /// Gives a number that has a value this one in its place. It takes no memory.
    #[inline(always)]
    pub fn set(&mut self, number: u64, value: V)
        requires { IsSome (lookup (is_at (nat_cmp number)) self.old) }
        ensures { self.new ≡ insert_entry nat_cmp self.old number value }
    {
        match &mut self.form {
            Form::Rising(list) => {
                if let Some(place) = place_of(list.as_slice(), number) {
                    list[place].1 = value;
                }
            }
            Form::Mixed(map) => {
                if let Some(kept) = map.get_mut(&number) {
                    *kept = value;
                }
            }
        }
    }

    /// All of it, by rising number.
    pub fn listing(&self) -> Listing<'_, V>
        ensures all { listed result ≡ self.now }
        ensures rising { IsInOrder result }
    {
        match &self.form {
            Form::Rising(list) => Listing::Rising(list.as_slice()),
            Form::Mixed(map) => Listing::Mixed(map),
        }
    }
}

/// A map of what a list has, with this value of a number.
#[cold]
#[inline(never)]
fn mapped<V: Copy>(
    list: &[(u64, V)],
    alloc: Global,
    number: u64,
    value: V,
) -> Result<BTreeMap<u64, V>, AllocError>
    requires { AreRising list.now }
    ensures { IfOk result (λ map. map.entries ≡ insert_entry nat_cmp list.now number value) }
{
    let mut map = BTreeMap::new(alloc);
    for &(listed, kept) in list {
        map.insert(listed, kept)?;
    }
    map.insert(number, value)?;
    Ok(map)
}

/// Whether a number is above all of a list.
#[inline(always)]
pub fn is_above<V>(list: &[(u64, V)], number: u64) -> bool
    requires { AreRising list.now }
    ensures { result ≡ true → All (IsBelow number) list.now }
{
    match list.last() {
        Some(last) => last.0 < number,
        None => true,
    }
}

/// Where a number is in a list, if it is there. Numbers rise, so one that is so far below the last
/// one is at most as many places before it. It is looked for there first, where it is if no
/// number is left out, and then in the places after that.
#[inline(always)]
pub fn place_of<V>(list: &[(u64, V)], number: u64) -> Option<usize>
    requires { AreRising list.now }
    ensures found { IfSome result (StandsAt list.now number) }
    ensures absent { IfNone result (All (IsOther number) list.now) }
{
    let last_place = list.len().checked_sub(1)?;
    let last = list[last_place].0;
    if last < number {
        return None;
    }
    let first = last_place.saturating_sub((last - number) as usize);
    if list[first].0 == number {
        return Some(first);
    }
    match list[first..].binary_search_by_key(&number, |item| item.0) {
        Ok(place) => Some(first + place),
        Err(_) => None,
    }
}
