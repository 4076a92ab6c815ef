// Who belongs to whom, by the rows alone: families by their parents, and customers by their ceilings. Rows are arrays
// by slot: ids (0 is free), the parent's slot where there is one, customers.
#![tactic(auto)]

ghost use Rattle.std.specs.Prelude.{◌≡◌, ◌<◌, length};
ghost use Rattle.rules.specs.Numbers.{base_slots, base_customers};
ghost use Rattle.kin.specs.Families.{Kin, kin, parent_at, Marks, may_name_at, at_ceiling};

use lines::living_of;
use rules::{CUSTOMERS, SLOTS};
use std::array;

// Whether the process in a slot has the id, or descends from who has it.
fn descends<'a>(
    ids: &'a [u32; SLOTS],
    parents: &'a [Option<u8>; SLOTS],
    from: usize,
    id: u32,
) -> bool
    requires { (length ids.now ≡ base_slots) × (length parents.now ≡ base_slots) × (from < base_slots) × Kin parents.now ids.now }
    ensures { result ≡ kin parents.now ids.now id from }
{
    let mut s = from;
    loop {
        if ids[s] == id {
            return true;
        }
        let Some(up) = parents[s] else {
            return false;
        };
        s = up as usize;
    }
}

// The id of the parent of who is in a slot; 0 where there is none: kept a number, as "0 for id 1" is what is answered.
pub fn parent_of<'a>(ids: &'a [u32; SLOTS], parents: &'a [Option<u8>; SLOTS], slot: usize) -> u32
    requires { (length ids.now ≡ base_slots) × (length parents.now ≡ base_slots) × (slot < base_slots) × Kin parents.now ids.now }
    ensures { result ≡ parent_at parents.now ids.now slot }
{
    let Some(up) = parents[slot] else {
        return 0;
    };
    let p = up as usize;
    ids[p]
}

// The slots of the family of who has the id.
pub fn family<'a>(ids: &'a [u32; SLOTS], parents: &'a [Option<u8>; SLOTS], id: u32) -> [bool; SLOTS]
    requires { (length ids.now ≡ base_slots) × (length parents.now ≡ base_slots) × Kin parents.now ids.now }
    ensures { Marks parents.now ids.now id result }
{
    array::from_fn(|s| descends(ids, parents, s, id))
}

// 02, (xi): "terminate may now name only the caller itself or its own descendants; customer 0 may still name anyone".
pub fn may_name<'a>(
    ids: &'a [u32; SLOTS],
    parents: &'a [Option<u8>; SLOTS],
    customers: &'a [u8; SLOTS],
    caller: usize,
    target: usize,
) -> bool
    requires { (length ids.now ≡ base_slots) × (length parents.now ≡ base_slots) × (length customers.now ≡ base_slots) × (caller < base_slots) × (target < base_slots) × Kin parents.now ids.now }
    ensures { result ≡ may_name_at customers.now parents.now ids.now caller target }
{
    if customers[caller] == 0 {
        return true;
    }
    let own = ids[caller];
    descends(ids, parents, target, own)
}

// 02, (ii): "the child's customer is at its ceiling, the named customer is above 8".
pub fn at_ceiling<'a>(
    ids: &'a [u32; SLOTS],
    customers: &'a [u8; SLOTS],
    ceilings: &'a [u16; CUSTOMERS],
    customer: u32,
) -> bool
    requires { length ceilings.now ≡ base_customers }
    ensures { result ≡ at_ceiling ids.now customers.now ceilings.now customer }
{
    let c = customer as usize;
    if CUSTOMERS <= c {
        return true;
    }
    let alive = living_of(ids, customers, c as u8);
    ceilings[c] <= alive as u16
}
