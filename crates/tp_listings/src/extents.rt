//! Lists of runs that grow block by block.
ghost use Rattle.std.specs.Prelude.{◌≡◌, ◌+◌, ◌<◌, ◌==◌, ◌++◌, ◌∷◌, [], IfErr, OnOk};
ghost use Rattle.tp_listings.specs.Pages.{joined};
ghost use Rattle.tp_listings.specs.Seeking.{IsPushed};

use crate::extent::Extent;
use tp_model::Refusal;

/// Whether a run ends before this block, which goes on with it.
pub(crate) fn goes_on(run: Extent, block: u32) -> bool
    ensures { result ≡ (run.first + run.blocks == block) }
{
    if block < run.first {
        return false;
    }
    block - run.first == run.blocks
}

/// Puts a run behind the others: `Memory` where there is none.
fn push_run(extents: &mut Vec<Extent>, run: Extent) -> Result<(), Refusal>
    ensures pushed { OnOk result (extents.new.items ≡ extents.old.items ++ run ∷ []) }
    ensures refused { IfErr result (λ reason. reason ≡ Refusal.Memory) }
{
    match extents.push(run) {
        Ok(()) => Ok(()),
        Err(_) => Err(Refusal::Memory),
    }
}

/// Puts a run behind the others, which goes on with the last one where that ends at it: `Memory` where there is none.
pub fn add_run(extents: &mut Vec<Extent>, run: Extent) -> Result<(), Refusal>
    requires { run.first + run.blocks < 4294967296 }
    ensures added { OnOk result (extents.new.items ≡ joined extents.old.items (run ∷ [])) }
    ensures refused { IfErr result (λ reason. reason ≡ Refusal.Memory) }
{
    let Some(last) = extents.pop() else {
        return push_run(extents, run);
    };
    if goes_on(last, run.first) {
        let longer = Extent {
            first: last.first,
            blocks: last.blocks + run.blocks,
        };
        return push_run(extents, longer);
    }
    push_run(extents, last)?;
    push_run(extents, run)
}

/// Puts a block behind the others, which goes on with the last run where it is the next one: `Memory` where there is none.
pub(crate) fn push_block(extents: &mut Vec<Extent>, block: u32) -> Result<(), Refusal>
    requires { block < 16777216 }
    ensures pushed { OnOk result (IsPushed block extents.old.items extents.new.items) }
    ensures refused { IfErr result (λ reason. reason ≡ Refusal.Memory) }
{
    let alone = Extent {
        first: block,
        blocks: 1,
    };
    let Some(last) = extents.pop() else {
        return push_run(extents, alone);
    };
    if goes_on(last, block) {
        let longer = Extent {
            first: last.first,
            blocks: last.blocks + 1,
        };
        return push_run(extents, longer);
    }
    push_run(extents, last)?;
    push_run(extents, alone)
}
