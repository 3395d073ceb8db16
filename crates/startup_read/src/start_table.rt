//! How an opening starts, by what stands at `index`, `index.log` and `index.tmp`.

ghost use Rattle.std.specs.Prelude.{◌≡◌};
ghost use Rattle.index_theory.specs.Start.{decide as start_by};

pub use index_theory::{IndexKind, LogKind, Start};

/// How a cache starts with this index and this journal. `tmp` says whether a file stands at `index.tmp`.
pub fn decide(index: IndexKind, log: LogKind, tmp: bool) -> Start
    ensures { result ≡ start_by index log tmp }
{
    match index {
        IndexKind::Missing => Start::Build,
        IndexKind::Invalid => Start::Build,
        IndexKind::Dirty => Start::Update,
        IndexKind::Clean => match log {
            LogKind::Missing => Start::Update,
            LogKind::Invalid => Start::Update,
            LogKind::Valid => { if tmp { Start::Update } else { Start::Ready } }
        },
    }
}
