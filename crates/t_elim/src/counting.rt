ghost use Rattle.std.specs.Prelude.{◌≡◌, ◌≤◌, ◌<◌, ◌+◌, ◌*◌, ◌↔◌, IfOk, MatchOption, IsTrue, All, cond, length, true};
ghost use Rattle.mp_logic.specs.Literal.{IsUpTo};
ghost use Rattle.mp_clauses.specs.Signatures.{signature_of};
ghost use Rattle.mp_clauses.specs.Slots.{is_live, live_clauses};
ghost use Rattle.mp_store.specs.Clashing.{negations_beside};
ghost use Rattle.t_elim.specs.Eliminating.{positive, negative_of, having, PaysOff};
ghost use Rattle.t_elim.specs.Resolving.{resolvents_with, resolvents_of};

use mp_logic::{Lit, NoMemory};
use mp_store::{ClauseId, LiteralSet, Store, clashes_with, signature_beside};

/// Whether elimination of the variable pays off: there are at most 256 pairs of clauses, and no more resolvents without
/// tautologies than clauses.
pub fn pays_off(store: &Store, hand: &mut LiteralSet, variable: u32) -> Result<bool, NoMemory>
    requires { IsUpTo store.now.vars (positive variable) }
    ensures { IfOk result (λ b. IsTrue b ↔ PaysOff variable (having (positive variable) (live_clauses store.now.slots)) (having (negative_of variable) (live_clauses store.now.slots))) }
{
    let positive = Lit::new(variable, false);
    let negative = Lit::new(variable, true);
    let worth = are_worth_it(
        store,
        hand,
        variable,
        store.occurrences(positive),
        store.occurrences(negative),
    )?;
    Ok(worth)
}

/// The same of two lists of clauses. Those of the shorter list are held in turn, since to hold a clause costs more than to go
/// over one.
fn are_worth_it(
    store: &Store,
    hand: &mut LiteralSet,
    variable: u32,
    positive: &[ClauseId],
    negative: &[ClauseId],
) -> Result<bool, NoMemory>
    requires positive { All (λ id. is_live store.now.slots id ≡ true) positive.now }
    requires negative { All (λ id. is_live store.now.slots id ≡ true) negative.now }
    ensures { IfOk result (λ b. IsTrue b ↔ (length positive.now * length negative.now ≤ 256) × (length (resolvents_of variable store.now.slots positive.now negative.now) ≤ length positive.now + length negative.now)) }
{
    if negative.len() < positive.len() {
        let turned = are_few(store, hand, variable, negative, positive)?;
        return Ok(turned);
    }
    are_few(store, hand, variable, positive, negative)
}

/// The same, with the clauses of the first list held. The count stops at the first resolvent that is one too many, and where
/// no more pairs are ahead than resolvents are left; it builds none.
fn are_few(
    store: &Store,
    hand: &mut LiteralSet,
    variable: u32,
    held: &[ClauseId],
    others: &[ClauseId],
) -> Result<bool, NoMemory>
    requires held { All (λ id. is_live store.now.slots id ≡ true) held.now }
    requires others { All (λ id. is_live store.now.slots id ≡ true) others.now }
    ensures { IfOk result (λ b. IsTrue b ↔ (length held.now * length others.now ≤ 256) × (length (resolvents_of variable store.now.slots held.now others.now) ≤ length held.now + length others.now)) }
{
    let Some(pairs) = few_pairs(held.len(), others.len()) else {
        return Ok(false);
    };
    let mut left = held.len() as u128 + others.len() as u128;
    let mut ahead = pairs;
    for id in held {
        if ahead as u128 <= left {
            return Ok(true);
        }
        hand.hold(store.clause(*id))?;
        let bits = signature_beside(hand, variable);
        if !fit(store, hand, variable, bits, others, &mut left) {
            return Ok(false);
        }
        ahead -= others.len();
    }
    Ok(true)
}

/// How many pairs two lists have, where these are at most 256.
fn few_pairs(left: usize, right: usize) -> Option<usize>
    ensures { MatchOption result (256 < left * right) (λ pairs. (pairs ≡ left * right) × (pairs ≤ 256)) }
{
    let pairs = left.checked_mul(right)?;
    if 256 < pairs {
        return None;
    }
    Some(pairs)
}

/// Takes the resolvents of the clause in hand off the number that is left, and answers whether they fitted. The bits are those
/// of `signature_beside`.
fn fit(
    store: &Store,
    hand: &LiteralSet,
    variable: u32,
    bits: u64,
    others: &[ClauseId],
    left: &mut u128,
) -> bool
    requires bits { bits ≡ signature_of (negations_beside variable hand.now) }
    requires others { All (λ id. is_live store.now.slots id ≡ true) others.now }
    ensures { cond result (left.new + length (resolvents_with variable hand.now store.now.slots others.now) ≡ left.old) (left.old < length (resolvents_with variable hand.now store.now.slots others.now)) }
{
    for id in others {
        if !clashes_with(store, hand, variable, bits, *id) {
            if *left == 0 {
                return false;
            }
            *left -= 1;
        }
    }
    true
}
