//! The name that a mistyped word is near to.

ghost use Rattle.std.specs.Prelude.{IfOk, option_map};
ghost use Rattle.clap.specs.Walk.{texts};
ghost use Rattle.nagsched_cli.specs.Nearest.{IsNearest};

use std::alloc::{AllocError, Global};
use strsim::levenshtein;

/// The most characters that are inserted, deleted or replaced between a word and a name that is near to it.
const MOST_EDITS: usize = 2;

/// The nearest of these names, if one is near to a word.
pub(crate) fn nearest<'a>(
    alloc: Global,
    word: &str,
    names: &[&'a str],
) -> Result<Option<&'a str>, AllocError>
    ensures { IfOk result (λ near. IsNearest word.now (texts names.now) (option_map (λ n. n.now) near)) }
{
    let mut near = None;
    let mut least = MOST_EDITS + 1;
    for name in names {
        let edits = levenshtein(alloc, word, name)?;
        if edits < least {
            least = edits;
            near = Some(*name);
        }
    }
    Ok(near)
}
