//! For each signal the nets that drive, or read, some of its bits.

ghost use Rattle.std.specs.Prelude.{◌≡◌, ◌<◌, ◌≤◌, ◌^◌, ◌||◌, ◌&&◌, ◌==◌, ℕ, true, false, None, length, map, IfOk, OnOk, IfSome};
ghost use Rattle.vl_bits.specs.vl_paths.specs.Bits.{Bit};
ghost use Rattle.vl_bits.specs.Masks.{has, in_part, in_parts, AreOf};
ghost use Rattle.cell_level.specs.Nets as spec;
ghost use Rattle.cell_level.specs.Tables.{in_users, listed, IsTable};
ghost use Rattle.cell_level.specs.Walks.{on};

use crate::flags::is_on;
use crate::nets::Net;
use std::alloc::{AllocError, Global};
use vl_bits::parts::Part;

/// A net that drives, or reads, bits of a signal.
#[derive(Clone, Copy)]
pub struct User {
    /// The net's number.
    pub net: u32,
    /// A mask of the bits.
    pub bits: u128,
}

/// No users, for each of so many signals.
fn no_users(alloc: Global, signals: usize) -> Result<Vec<Vec<User>>, AllocError>
    ensures long { IfOk result (λ v. length v.items ≡ signals) }
    ensures none { IfOk result (λ v. (p : ℕ) (b : Bit) → listed v.items p b ≡ false) }
{
    let mut table = Vec::new(alloc);
    for _signal in 0..signals {
        table.push(Vec::new(alloc))?;
    }
    Ok(table)
}

/// The net is a user of the part.
fn add_part(table: &mut Vec<Vec<User>>, net: u32, part: Part) -> Result<(), AllocError>
    requires { part.signal < length table.old.items }
    ensures long { OnOk result (length table.new.items ≡ length table.old.items) }
    ensures part { OnOk result ((p : ℕ) (b : Bit) → listed table.new.items p b ≡ (listed table.old.items p b || (net == p && in_part part b))) }
{
    let user = User {
        net,
        bits: part.bits,
    };
    table[part.signal as usize].push(user)?;
    Ok(())
}

/// The net is a user of the parts.
fn add_parts(table: &mut Vec<Vec<User>>, net: u32, parts: &[Part]) -> Result<(), AllocError>
    requires { AreOf (length table.old.items) parts.now }
    ensures long { OnOk result (length table.new.items ≡ length table.old.items) }
    ensures parts { OnOk result ((p : ℕ) (b : Bit) → listed table.new.items p b ≡ (listed table.old.items p b || (net == p && in_parts parts.now b))) }
{
    for part in parts {
        add_part(table, net, *part)?;
    }
    Ok(())
}

/// For each signal the nets that drive bits of it.
pub fn drivers(alloc: Global, signals: usize, nets: &[Net]) -> Result<Vec<Vec<User>>, AllocError>
    requires within { spec.AreNets signals nets.now }
    requires few { length nets.now < 2 ^ 32 }
    ensures long { IfOk result (λ v. length v.items ≡ signals) }
    ensures table { IfOk result (λ v. IsTable v.items (spec.drives nets.now)) }
{
    let mut table = no_users(alloc, signals)?;
    for (number, net) in nets.iter().enumerate() {
        add_parts(&mut table, number as u32, net.drives.as_slice())?;
    }
    Ok(table)
}

/// For each signal the nets that read bits of it.
pub fn readers(alloc: Global, signals: usize, nets: &[Net]) -> Result<Vec<Vec<User>>, AllocError>
    requires within { spec.AreNets signals nets.now }
    requires few { length nets.now < 2 ^ 32 }
    ensures long { IfOk result (λ v. length v.items ≡ signals) }
    ensures table { IfOk result (λ v. IsTable v.items (spec.reads nets.now)) }
{
    let mut table = no_users(alloc, signals)?;
    for (number, net) in nets.iter().enumerate() {
        add_parts(&mut table, number as u32, net.reads.as_slice())?;
    }
    Ok(table)
}

/// Whether two masks have a bit in common.
fn meet(first: u128, second: u128) -> bool
    ensures yes { result ≡ true → (i : ℕ) × (has first i ≡ true) × (has second i ≡ true) }
    ensures no { result ≡ false → (i : ℕ) → has first i ≡ true → has second i ≡ false }
{
    first & second != 0
}

/// The first user of some of the bits whose flag is off.
fn unmarked(users: &[User], bits: u128, flags: &Vec<bool>) -> Option<u32>
    requires { (p i : ℕ) → in_users users.now p i ≡ true → p < length flags.now.items }
    ensures none { result ≡ None → (p i : ℕ) → in_users users.now p i ≡ true → has bits i ≡ true → on flags.now.items p ≡ true }
    ensures some { IfSome result (λ p. (on flags.now.items p ≡ false) × ((i : ℕ) × (in_users users.now p i ≡ true) × (has bits i ≡ true))) }
{
    for user in users {
        if meet(user.bits, bits) && !is_on(flags, user.net) {
            return Some(user.net);
        }
    }
    None
}

/// The first user of some of the parts whose flag is off.
fn unmarked_user(table: &[Vec<User>], parts: &[Part], flags: &Vec<bool>) -> Option<u32>
    requires parts { AreOf (length table.now) parts.now }
    requires flags { (p : ℕ) (b : Bit) → listed table.now p b ≡ true → p < length flags.now.items }
    ensures none { result ≡ None → (p : ℕ) (b : Bit) → listed table.now p b ≡ true → in_parts parts.now b ≡ true → on flags.now.items p ≡ true }
    ensures some { IfSome result (λ p. (on flags.now.items p ≡ false) × ((b : Bit) × (listed table.now p b ≡ true) × (in_parts parts.now b ≡ true))) }
{
    for part in parts {
        let users = table[part.signal as usize].as_slice();
        if let Some(net) = unmarked(users, part.bits, flags) {
            return Some(net);
        }
    }
    None
}

/// A net that drives what this one reads, and whose flag is off.
pub fn unmarked_driver(
    nets: &[Net],
    drivers: &[Vec<User>],
    flags: &Vec<bool>,
    net: u32,
) -> Option<u32>
    requires within { spec.AreNets (length drivers.now) nets.now }
    requires table { IsTable drivers.now (spec.drives nets.now) }
    requires flags { length flags.now.items ≡ length nets.now }
    requires net { net < length nets.now }
    ensures none { result ≡ None → (p : ℕ) → spec.Edge nets.now p net → on flags.now.items p ≡ true }
    ensures some { IfSome result (λ p. (on flags.now.items p ≡ false) × spec.Edge nets.now p net) }
    ensures within { IfSome result (λ p. p < length nets.now) }
{
    unmarked_user(drivers, nets[net as usize].reads.as_slice(), flags)
}

/// A net that reads what this one drives, and whose flag is off.
pub fn unmarked_reader(
    nets: &[Net],
    readers: &[Vec<User>],
    flags: &Vec<bool>,
    net: u32,
) -> Option<u32>
    requires within { spec.AreNets (length readers.now) nets.now }
    requires table { IsTable readers.now (spec.reads nets.now) }
    requires flags { length flags.now.items ≡ length nets.now }
    requires net { net < length nets.now }
    ensures none { result ≡ None → (q : ℕ) → spec.Edge nets.now net q → on flags.now.items q ≡ true }
    ensures some { IfSome result (λ q. (on flags.now.items q ≡ false) × spec.Edge nets.now net q) }
    ensures within { IfSome result (λ q. q < length nets.now) }
{
    unmarked_user(readers, nets[net as usize].drives.as_slice(), flags)
}
