//! The generations kept for the BSCs.

ghost use Rattle.std.specs.Prelude.{◌≡◌, [], OnOk, OnErr};
ghost use Rattle.console.specs.Generations.{generation_of, with_generation};

use crate::kept::Kept;
use cell_register::BscId;
use std::alloc::{AllocError, Global};
use std::marker::Model;

/// For each BSC the generation that its next line about a link speaks of: that of the last link that this run brought
/// up, or the one that an operator set since.
#[derive(Debug, Drop)]
pub struct Generations {
    kept: Vec<Kept>,
}

impl Model for Generations {
    ghost use Rattle.std.specs.Prelude.{List};
    ghost use Rattle.console.specs.declared.kept.Kept.{Kept};

    ghost Value = { List Kept };

    ghost view = { λ s. s.kept.items };
}

impl Generations {
    pub fn new(alloc: Global) -> Generations
        ensures { result ≡ [] }
    {
        Generations {
            kept: Vec::new(alloc),
        }
    }

    /// The generation kept for the BSC, 0 if none.
    pub fn of(&self, bsc: BscId) -> u64
        ensures { result ≡ generation_of self.now bsc }
    {
        generation_in(&self.kept, bsc)
    }

    /// Keeps this generation for the BSC. At an `Err` nothing changed.
    pub fn keep(&mut self, bsc: BscId, generation: u64) -> Result<(), AllocError>
        ensures ok { OnOk result (self.new ≡ with_generation bsc generation self.old) }
        ensures err { OnErr result (self.new ≡ self.old) }
    {
        keep_in(&mut self.kept, bsc, generation)
    }
}

fn generation_in(kept: &[Kept], bsc: BscId) -> u64
    ensures { result ≡ generation_of kept.now bsc }
{
    for one in kept {
        if one.bsc == bsc {
            return one.generation;
        }
    }
    0
}

fn keep_in(kept: &mut Vec<Kept>, bsc: BscId, generation: u64) -> Result<(), AllocError>
    ensures ok { OnOk result (kept.new.items ≡ with_generation bsc generation kept.old.items) }
    ensures err { OnErr result (kept.new.items ≡ kept.old.items) }
{
    for i in 0..kept.len() {
        if kept[i].bsc == bsc {
            kept[i] = Kept { bsc, generation };
            return Ok(());
        }
    }
    kept.push(Kept { bsc, generation })?;
    Ok(())
}
