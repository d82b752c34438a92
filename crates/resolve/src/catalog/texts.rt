//! The texts of version sets and of several versions.

ghost use Rattle.std.specs.Prelude.{◌≡◌, IfOk, IfErr, string_bytes};
ghost use Rattle.resolve.specs.Ranges.{range_text};
ghost use Rattle.resolve.specs.Versions.{versions_text};

use crate::ids::Range;
use itertools::Itertools;
use resolver_clause_store::Exhausted;
use std::alloc::Global;

/// Returns the text of a range: a star, or its two bounds.
pub fn range_text(alloc: Global, range: Range) -> Result<String, Exhausted>
    ensures text { IfOk result (λ text. string_bytes text ≡ range_text range) }
    ensures memory { IfErr result (λ e. e ≡ Exhausted.Memory) }
{
    let text = match range {
        Range::All => String::from_str(alloc, "*")?,
        Range::Within { low, high } => format!(in alloc; ">={low}, <{high}")?,
    };
    Ok(text)
}

/// Returns the text of several versions, joined by bars.
pub fn versions_text(alloc: Global, versions: &[u32]) -> Result<String, Exhausted>
    ensures text { IfOk result (λ text. string_bytes text ≡ versions_text versions.now) }
    ensures memory { IfErr result (λ e. e ≡ Exhausted.Memory) }
{
    Ok(versions.iter().copied().join(alloc, " | ")?)
}
