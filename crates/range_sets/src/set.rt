ghost use Rattle.std.specs.Prelude.{◌≡◌, ◌^◌, ◌≤◌, ◌↔◌, All, IfErr, IfOk, IfSome, IsNone, None, OnOk, Some, true};
ghost use Rattle.nvm_base.specs.Units.{Holds};
ghost use Rattle.range_sets.specs.Faults.{IsRangeCause, first_empty};
ghost use Rattle.range_sets.specs.Lines.{fits};
ghost use Rattle.range_sets.specs.Ranges.{IsInReach, IsRangeSet, is_disjoint, offset_of, offset_of_span, address_of, total_of};

use crate::{faults, walk};
use nvm_base::Span;
use std::alloc::Global;
use std::marker::Model;

/// Why ranges are no set.
#[derive(Clone, Copy, Debug, PartialEq, Eq)]
pub enum RangeFault {
    /// The first range with no byte.
    Empty(u64),
    /// The first range that shares a byte with an earlier one.
    Overlap(u64),
    Memory,
}

/// Ranges in an order, no two of which share a byte. Contracts see the list of them.
#[derive(Debug, Drop)]
pub struct RangeSet {
    ranges: Vec<Span>,
    total: u64,
}

impl Model for RangeSet {
    ghost use Rattle.std.specs.Prelude.{◌≡◌, List};
    ghost use Rattle.nvm_base.specs.declared.units.Span.{Span};
    ghost use Rattle.range_sets.specs.Ranges.{IsRangeSet, total_of};

    ghost Value = { List Span };

    ghost view = { λ s. s.ranges.items };

    ghost invariant = { λ s. IsRangeSet s.ranges.items × (s.total ≡ total_of s.ranges.items) };
}

impl RangeSet {
    pub fn make(alloc: Global, ranges: &[Span]) -> Result<Self, RangeFault>
        requires ends { All IsInReach ranges.now }
        requires total { total_of ranges.now ≤ 2 ^ 40 }
        ensures ok { IfOk result (λ set. set ≡ ranges.now) }
        ensures set { IfOk result IsRangeSet }
        ensures right { OnOk result ((first_empty ranges.now ≡ None) × (is_disjoint ranges.now ≡ true)) }
        ensures err { IfErr result (IsRangeCause ranges.now) }
    {
        if let Some(index) = faults::first_empty(ranges) {
            return Err(RangeFault::Empty(index as u64));
        }
        if let Some(index) = faults::first_overlap(ranges) {
            return Err(RangeFault::Overlap(index as u64));
        }
        match Vec::from_slice(alloc, ranges) {
            Ok(kept) => Ok(RangeSet {
                ranges: kept,
                total: walk::total_of(ranges),
            }),
            Err(_) => Err(RangeFault::Memory),
        }
    }

    /// The bytes of all ranges.
    pub fn total(&self) -> u64
        ensures total { result ≡ total_of self.now }
        ensures set { IsRangeSet self.now }
    {
        self.total
    }

    pub fn ranges(&self) -> &[Span]
        ensures ranges { result.now ≡ self.now }
        ensures set { IsRangeSet self.now }
    {
        self.ranges.as_slice()
    }

    /// The address of a byte.
    pub fn place(&self, offset: u64) -> Option<u64>
        ensures place { result ≡ address_of self.now offset }
        ensures none { IsNone result ↔ (total_of self.now ≤ offset) }
        ensures inverse { IfSome result (λ address. offset_of self.now address ≡ Some offset) }
        ensures set { IsRangeSet self.now }
    {
        walk::place(self.ranges.as_slice(), offset)
    }

    /// Which byte is at an address.
    pub fn offset_of(&self, address: u64) -> Option<u64>
        ensures offset { result ≡ offset_of self.now address }
        ensures none { IsNone result ↔ All (λ r. ¬ Holds r address) self.now }
        ensures inverse { IfSome result (λ offset. address_of self.now offset ≡ Some address) }
    {
        walk::offset_of(self.ranges.as_slice(), address)
    }

    /// Which byte a span of addresses begins with, where one range has all of it.
    pub fn offset_of_span(&self, span: Span) -> Option<u64>
        ensures offset { result ≡ offset_of_span self.now span }
        ensures set { IsRangeSet self.now }
    {
        walk::offset_of_span(self.ranges.as_slice(), span)
    }

    /// Whether each range is made of whole lines of a device of a number of.
    pub fn fits(&self, lines: u64) -> bool
        ensures fits { result ≡ fits self.now lines }
        ensures set { IsRangeSet self.now }
    {
        walk::fits(self.ranges.as_slice(), lines)
    }
}
