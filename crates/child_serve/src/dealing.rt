//! Distributes scripts and their keepers to workers.

ghost use Rattle.std.specs.Prelude.{◌≡◌, ◌+◌, ◌<◌, [], ◌∷◌, length, map, vec_len, nat_lt, if◌then◌else◌, IfOk, OnOk, None};
ghost use Rattle.dialogue_sched.specs.Hall.{opening_fault};
ghost use Rattle.child_serve.specs.Dealt.{AllDealt, Pushed};
ghost use Rattle.child_serve.specs.Whole.{keeping_of};
ghost use Rattle.child_serve.specs.Teams.{AreDealt, AreTeams, AllTeams};

use crate::worker::Team;
use child_hands::{Clock, Keeper};
use dialogue_sched::Script;
use std::alloc::{AllocError, Global};

/// Appends an element to the list at an index.
fn push_at<T: Drop>(parts: &mut Vec<Vec<T>>, at: usize, x: T) -> Result<(), AllocError>
    requires { at < vec_len parts.old }
    ensures { OnOk result (Pushed at x (map (λ p. p.items) parts.old.items) (map (λ p. p.items) parts.new.items)) }
{
    let part = &mut parts[at];
    let Ok(()) = part.push(x) else {
        return Err(AllocError);
    };
    Ok(())
}

/// Creates `n` empty lists.
fn empty_parts<T: Drop>(alloc: Global, n: usize) -> Result<Vec<Vec<T>>, AllocError>
    ensures { IfOk result (λ ps. (length ps.items ≡ n) × AllDealt n [] (map (λ p. p.items) ps.items)) }
{
    let mut parts = Vec::new(alloc);
    for _ in 0..n {
        let Ok(()) = parts.push(Vec::new(alloc)) else {
            return Err(AllocError);
        };
    }
    Ok(parts)
}

/// Returns the index whose turn is next, of `n`.
fn next_turn(turn: usize, n: usize) -> usize
    requires { turn < n }
    ensures { result ≡ (if nat_lt (turn + 1) n then turn + 1 else 0) }
{
    if turn + 1 < n { turn + 1 } else { 0 }
}

/// Distributes elements to `n` lists in turn.
fn dealt_out<T: Drop>(alloc: Global, n: usize, all: Vec<T>) -> Result<Vec<Vec<T>>, AllocError>
    requires { 0 < n }
    ensures { IfOk result (λ ps. (length ps.items ≡ n) × AllDealt n all.items (map (λ p. p.items) ps.items)) }
{
    let mut parts = empty_parts(alloc, n)?;
    let mut turn = 0;
    for x in all {
        push_at(&mut parts, turn, x)?;
        turn = next_turn(turn, n);
    }
    Ok(parts)
}

/// Takes the first element.
fn take_first<T: Drop>(list: &mut Vec<T>) -> T
    requires { 0 < vec_len list.old }
    ensures { list.old.items ≡ result ∷ list.new.items }
{
    list.remove(0)
}

/// Creates a team for each clock, with the scripts and keepers that were dealt to it.
fn teams_of<K: Keeper + Drop, C: Clock + Drop>(
    alloc: Global,
    scripts: Vec<Vec<Script>>,
    keepers: Vec<Vec<K>>,
    clocks: Vec<C>,
) -> Result<Vec<Team<K, C>>, AllocError>
    requires { (length scripts.items ≡ length clocks.items) × (length keepers.items ≡ length clocks.items) }
    ensures { IfOk result (λ ts. (length ts.items ≡ length clocks.items) × AreTeams (map (λ v. v.items) scripts.items) (map (λ v. v.items) keepers.items) ts.items) }
{
    let mut scripts = scripts;
    let mut keepers = keepers;
    let mut teams = Vec::new(alloc);
    for clock in clocks {
        let team = Team {
            keepers: take_first(&mut keepers),
            scripts: take_first(&mut scripts),
            clock,
        };
        let Ok(()) = teams.push(team) else {
            return Err(AllocError);
        };
    }
    Ok(teams)
}

/// Distributes scripts and their keepers, in turn, to one team per clock.
pub fn dealt<K: Keeper + Drop, C: Clock + Drop>(
    alloc: Global,
    scripts: Vec<Script>,
    keepers: Vec<K>,
    clocks: Vec<C>,
) -> Result<Vec<Team<K, C>>, AllocError>
    requires clocks { 0 < length clocks.items }
    requires keepers { length keepers.items ≡ length scripts.items }
    requires opens { opening_fault scripts.items ≡ None }
    ensures count { IfOk result (λ ts. length ts.items ≡ length clocks.items) }
    ensures dealt { IfOk result (λ ts. AreDealt K.named K.made (map (keeping_of K.named K.made) keepers.items) scripts.items ts.items) }
    ensures teams { IfOk result (λ ts. AllTeams ts.items) }
{
    let count = clocks.len();
    let scripts = dealt_out(alloc, count, scripts)?;
    let keepers = dealt_out(alloc, count, keepers)?;
    teams_of(alloc, scripts, keepers, clocks)
}
