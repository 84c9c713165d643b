// Bytes that are put together in memory.
ghost use Rattle.std.specs.Prelude.{◌≡◌, ◌++◌, [], Some, OnOk};
ghost use Rattle.tc_model.specs.Printed.{printed};
ghost use Rattle.tc_model.specs.Views.{trees};

use std::alloc::Global;
use tc_base::NoMemory;
use tc_io::{Sink, WriteFault};
use tc_model::Node;
use tc_print::print;

/// Bytes in memory, which grow. As a sink they fail where memory is refused, and nothing of the piece is written then.
#[derive(Drop)]
pub struct Buffer {
    bytes: Vec<u8>,
    refusals: u64,
}

impl Sink for Buffer {
    ghost written = { λ buffer. Some buffer.bytes.items };

    ghost faults = { λ buffer. buffer.refusals };

    // Nobody asks which writes there were.
    ghost write_gives = { λ _ _ _ _. Unit {0} };

    fn write(&mut self, piece: &[u8]) -> Result<(), WriteFault> {
        if self.bytes.extend_from_slice(piece).is_err() {
            self.refusals = self.refusals.saturating_add(1);
            return Err(WriteFault);
        }
        Ok(())
    }
}

impl Buffer {
    /// No bytes.
    pub fn new(alloc: Global) -> Buffer
        ensures { result.bytes.items ≡ [] }
    {
        Buffer {
            bytes: Vec::new(alloc),
            refusals: 0,
        }
    }

    /// Puts bytes at the end.
    pub fn put(&mut self, piece: &[u8]) -> Result<(), NoMemory>
        ensures { OnOk result (self.new.bytes.items ≡ self.old.bytes.items ++ piece.now) }
    {
        self.bytes.extend_from_slice(piece)?;
        Ok(())
    }

    /// Puts the text of trees at the end.
    fn put_trees(&mut self, nodes: &[Node<'_>]) -> Result<(), NoMemory>
        ensures { OnOk result
            (self.new.bytes.items ≡ self.old.bytes.items ++ printed (trees nodes.now)) }
    {
        match print(nodes, self) {
            Ok(()) => Ok(()),
            Err(WriteFault) => Err(NoMemory),
        }
    }

    /// Puts bytes, the text of trees, and bytes behind it at the end.
    pub fn put_shown(
        &mut self,
        front: &[u8],
        nodes: &[Node<'_>],
        behind: &[u8],
    ) -> Result<(), NoMemory>
        ensures { OnOk result (self.new.bytes.items ≡ self.old.bytes.items
            ++ (front.now ++ (printed (trees nodes.now) ++ behind.now))) }
    {
        self.put(front)?;
        self.put_trees(nodes)?;
        self.put(behind)
    }

    /// The bytes.
    pub fn into_bytes(self) -> Vec<u8>
        ensures { result.items ≡ self.bytes.items }
    {
        self.bytes
    }
}
