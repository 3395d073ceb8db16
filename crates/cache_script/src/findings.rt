//! What is printed of a finding.

ghost use Rattle.std.specs.Prelude.{◌≡◌, IfOk, string_bytes};
ghost use Rattle.cache_theory.specs.Text.{finding_words, spaced, unfit_word, what_words};

use crate::refusals::damage_text;
use cache_base::NoMemory;
use cache_check::{Finding, What};
use entry_file::Unfit;
use std::alloc::Global;

fn unfit_text(check: Unfit) -> &'static str
    ensures { result.now ≡ unfit_word check }
{
    match check {
        Unfit::Short => "short",
        Unfit::TooBig => "too-big",
        Unfit::Version => "version",
        Unfit::KeyEnd => "key-end",
        Unfit::Hash => "hash",
        Unfit::KeyForm => "key-form",
        Unfit::Elements => "elements",
        Unfit::WrongName => "wrong-name",
    }
}

fn what_text(alloc: Global, what: What) -> Result<String, NoMemory>
    ensures { IfOk result (λ text. string_bytes text ≡ spaced (what_words what)) }
{
    let text = match what {
        What::Unfit(check) => {
            let word = unfit_text(check);
            return Ok(format!(in alloc; "unfit {word}")?);
        }
        What::Damaged(damage) => return damage_text(alloc, damage),
        What::Missing => "missing",
        What::Extra => "extra",
        What::Differs => "differs",
    };
    Ok(String::from_str(alloc, text)?)
}

/// The line that is printed of a finding, without its newline. Fails only where memory runs out.
pub fn finding_text(alloc: Global, f: &Finding) -> Result<String, NoMemory>
    ensures { IfOk result (λ text. string_bytes text ≡ spaced (finding_words f.now)) }
{
    let name = hex::encode_upper(alloc, f.name.0.as_slice())?;
    let what = what_text(alloc, f.what)?;
    Ok(format!(in alloc; "{name} {what}")?)
}
