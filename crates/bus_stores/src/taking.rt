ghost use Rattle.std.specs.Prelude.{◌≡◌, None, IfOk, OnErr, IsSome, is_some, option_map};
ghost use Rattle.bus_stores.specs.Taking.{Takes, commit_move};

use crate::keeper::{Keeper, StoreFault};
use bus_types::{Change, MarkText};
use std::alloc::Global;

/// What a commit makes.
#[derive(Debug, Drop)]
pub struct Commit<'a> {
    /// Whether the rows are cleared first.
    pub clear: bool,
    /// The changes, in order.
    pub batch: Vec<Change>,
    /// The mark.
    pub mark: &'a MarkText,
}

/// Makes the commit, where there is one to make, and then gives its vector back, with changes that are of no matter. Without
/// one it asks the keeper nothing, and doesn't fail.
pub fn take<K: Keeper>(
    alloc: Global,
    keeper: &mut K,
    commit: Option<Commit>,
) -> Result<Option<Vec<Change>>, StoreFault>
    ensures takes { Takes (option_map commit_move commit.entry) (K.state keeper.old) (K.state keeper.new) result }
    ensures committed { IfOk result (λ batch. is_some batch ≡ is_some commit.entry) }
    ensures fails { OnErr result (IsSome commit.entry) }
    ensures nothing { commit.entry ≡ None → K.state keeper.new ≡ K.state keeper.old }
{
    let Some(commit) = commit else {
        return Ok(None);
    };
    let mut batch = commit.batch;
    keeper.commit_taking(alloc, commit.clear, &mut batch, commit.mark)?;
    Ok(Some(batch))
}
