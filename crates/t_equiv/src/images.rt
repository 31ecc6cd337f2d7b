//! The image of each literal: the first literal that is equivalent to it.
ghost use Rattle.std.specs.Prelude.{◌≡◌, ◌<◌, ◌≤◌, ◌+◌, ◌-◌, ◌*◌, ◌^◌, IfOk, OnOk, IsTrue, length, map, true, false};
ghost use Rattle.mp_logic.specs.Literal.{IsUpTo};
ghost use Rattle.t_equiv.specs.Implications.{number_place};
ghost use Rattle.t_equiv.specs.Images.{IsFirst, image_in, AreImages, AreHeads, HasOpposite, NoneOpposite, AreReplaced};

use crate::numbering::number_at;
use mp_logic::{Lit, NoMemory};
use std::alloc::Global;

/// The image of a literal, by a table with a place for each number.
pub fn image(images: &[Lit], lit: Lit) -> Lit
    ensures { result ≡ image_in images.now lit }
{
    match images.get(number_at(lit)) {
        Some(image) => *image,
        None => lit,
    }
}

/// Whether a variable has one number for both its literals.
pub fn has_opposites(vars: u32, numbers: &[u64]) -> bool
    requires { length numbers.now ≡ 2 * vars }
    ensures some { result ≡ true → HasOpposite vars numbers.now }
    ensures none { result ≡ false → NoneOpposite vars numbers.now }
{
    for variable in 0..vars as usize {
        if numbers[2 * variable] == numbers[2 * variable + 1] {
            return true;
        }
    }
    false
}

/// For each place the first literal with its number.
pub fn images_of(alloc: Global, numbers: &[u64]) -> Result<Vec<Lit>, NoMemory>
    requires { length numbers.now + 2 ≤ 2 ^ 33 }
    ensures { IfOk result (λ images. AreImages numbers.now images.items) }
{
    let mut heads = vec![in alloc; numbers.len(); numbers.len()]?;
    let mut made = Vec::with_capacity(alloc, numbers.len())?;
    for place in 0..numbers.len() {
        let first = first_place(&mut heads, numbers, place);
        made.push(numbered_literal(first))?;
    }
    Ok(made)
}

/// The first place with the number of a place, by a table of the first places of the numbers so far.
fn first_place(heads: &mut Vec<usize>, numbers: &[u64], place: usize) -> usize
    requires within { place < length numbers.now }
    requires heads { AreHeads numbers.now place heads.old.items }
    ensures first { IsFirst numbers.now place result }
    ensures heads { AreHeads numbers.now (place + 1) heads.new.items }
{
    let number = numbers[place];
    if number >= heads.len() as u64 {
        return find_first(numbers, place);
    }
    let head = heads[number as usize];
    if head < place {
        return head;
    }
    heads[number as usize] = place;
    place
}

/// The same by a search, for a number that is past the table.
fn find_first(numbers: &[u64], place: usize) -> usize
    requires { place < length numbers.now }
    ensures { IsFirst numbers.now place result }
{
    for other in 0..place {
        if numbers[other] == numbers[place] {
            return other;
        }
    }
    place
}

/// The literal whose number stands at a place.
fn numbered_literal(place: usize) -> Lit
    requires { place + 2 < 2 ^ 33 }
    ensures number { number_place result ≡ place }
    ensures from_one { 1 ≤ result.variable }
{
    Lit::new((place / 2 + 1) as u32, place % 2 == 1)
}

/// The variables that are replaced, each behind the variable of its image, in the order in which they are replaced: by
/// that, and then by their own.
pub fn replaced_variables(
    alloc: Global,
    vars: u32,
    images: &[Lit],
) -> Result<Vec<(u32, u32)>, NoMemory>
    ensures { IfOk result (λ pairs. AreReplaced vars images.now (map (λ pair. pair.1) pairs.items)) }
{
    let mut made = Vec::new(alloc);
    for below in 0..vars {
        add_replaced(&mut made, images, below + 1)?;
    }
    made.sort_unstable();
    Ok(made)
}

/// Adds the next variable, if it is replaced.
fn add_replaced(made: &mut Vec<(u32, u32)>, images: &[Lit], variable: u32) -> Result<(), NoMemory>
    requires from_one { 1 ≤ variable }
    requires replaced { AreReplaced (variable - 1) images.now (map (λ pair. pair.1) made.old.items) }
    ensures { OnOk result (AreReplaced variable images.now (map (λ pair. pair.1) made.new.items)) }
{
    let root = image(images, Lit::new(variable, false)).variable;
    if root == variable {
        return Ok(());
    }
    made.push((root, variable))?;
    Ok(())
}
