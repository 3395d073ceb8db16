//! What is printed of a refusal.

ghost use Rattle.std.specs.Prelude.{◌≡◌, IfOk, string_bytes};
ghost use Rattle.cache_theory.specs.Text.{damage_words, refusal_words, spaced};

use cache_base::NoMemory;
use cache_theory::Refusal;
use chunk_store::Damage;
use std::alloc::Global;

/// The line that is printed of a damage, without its newline.
pub(crate) fn damage_text(alloc: Global, damage: Damage) -> Result<String, NoMemory>
    ensures { IfOk result (λ text. string_bytes text ≡ spaced (damage_words damage)) }
{
    let chunk = damage.chunk;
    let stored = hex::encode_upper(alloc, damage.stored.to_be_bytes())?;
    let found = hex::encode_upper(alloc, damage.found.to_be_bytes())?;
    Ok(format!(in alloc; "damaged {chunk} {stored} {found}")?)
}

/// The line that is printed of a refusal, without its newline. Fails only where memory runs out.
pub fn refusal_text(alloc: Global, r: &Refusal) -> Result<String, NoMemory>
    ensures { IfOk result (λ text. string_bytes text ≡ spaced (refusal_words r.now)) }
{
    let text = match *r {
        Refusal::SlotTaken => "slot taken",
        Refusal::NoSlot => "no slot",
        Refusal::Absent => "absent",
        Refusal::Unfinished => "unfinished",
        Refusal::Damaged(damage) => return damage_text(alloc, damage),
        Refusal::NotWriter => "not writer",
        Refusal::Finished => "finished",
        Refusal::TooLarge => "too large",
        Refusal::BadKey => "bad key",
        Refusal::BadElement => "bad element",
        Refusal::HasAlt => "has alt",
        Refusal::NoAlt => "no alt",
    };
    Ok(String::from_str(alloc, text)?)
}
