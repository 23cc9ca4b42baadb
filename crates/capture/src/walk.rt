// Going through a block record by record: each starts where the one before it ends, and is judged with the corrections before it.
ghost use Rattle.std.specs.Prelude.{◌≡◌, List, ℕ, ◌+◌, ◌≤◌, ◌<◌};
ghost use Rattle.octets.specs.BigEndian.{six_octets};
ghost use Rattle.records.specs.declared.near.Heard.{Heard};
ghost use Rattle.records.specs.declared.near.Drift.{Drift};
ghost use Rattle.records.specs.declared.header.Header.{Header};
ghost use Rattle.records.specs.Near.{judged, no_drift};
ghost use Rattle.records.specs.Record.{record_octets};
ghost use Rattle.records.specs.Block.{most_octets, directory_octets, header_from};
ghost use Rattle.rows.specs.Text.{row_of, text_of};
ghost use Rattle.reading.specs.Listing.{line_octets};
ghost use Rattle.capture.specs.Walk.{turned};

use records::block::{directory_octets, header_from};
use records::header::{Header, RecordVerdict, record_octets};
use records::near::{Drift, Heard, judge, no_drift};
use rows::{Line, row};

// Who judges the records of a block.
pub trait Judge {
    type Verdict;

    ghost judged: { Self → Drift → Header → Heard Self.Verdict };

    ghost listed: { ℕ → Header → Self.Verdict → List ℕ };

    // The verdict on a record by its header, and the corrections behind it.
    fn judge(&self, drift: Drift, h: Header) -> Heard<Self::Verdict>
        ensures { result ≡ judged self.now drift h };

    // The row of the record with number k, the header h and that verdict. Numbers of at most four digits keep it short.
    fn row(&self, k: u64, h: Header, verdict: Self::Verdict) -> Line
        ensures text { text_of result ≡ listed k h verdict }
        ensures short { k < 10000 → h.eqs < 10000 → result.used ≤ line_octets };
}

// Document 01's reader, in the near way or the usual one.
#[derive(Clone, Copy)]
pub(crate) struct Reader<'a> {
    pub(crate) near: bool,
    pub(crate) settings: &'a [u8],
}

impl<'a> Judge for Reader<'a> {
    type Verdict = RecordVerdict;

    ghost judged = { λ r. judged r.near r.settings.now };

    ghost listed = { row_of };

    fn judge(&self, drift: Drift, h: Header) -> Heard<RecordVerdict> {
        judge(self.near, self.settings, drift, h)
    }

    #[tactic(auto, using(reading::proofs::Lines::row_short))]
    fn row(&self, k: u64, h: Header, verdict: RecordVerdict) -> Line {
        row(k, h, verdict)
    }
}

// A record in its turn: where it starts, its header and the verdict on it.
#[derive(Clone, Copy)]
pub struct Turn<V> {
    pub from: usize,
    pub header: Header,
    pub verdict: V,
}

// Where the next record starts, and the corrections before it.
#[derive(Clone, Copy)]
pub struct Walk {
    pub from: usize,
    pub drift: Drift,
}

impl Walk {
    // Ahead of the first of n records.
    pub fn start(n: u16) -> Walk
        ensures { result ≡ record { from = directory_octets n; drift = no_drift } }
    {
        Walk {
            from: directory_octets(n),
            drift: no_drift(),
        }
    }

    // The next record, behind which the walk goes on. In a block the sum does not saturate.
    pub fn turn<J: Judge>(&mut self, judge: &J, block: &[u8]) -> Turn<J::Verdict>
        ensures value { result ≡ turned (J.judged judge.now) block.now self.old }
        ensures from { result.from ≡ self.old.from }
        ensures header { result.header ≡ header_from block.now self.old.from }
        ensures clock { result.header.clock < six_octets }
        ensures verdict { result.verdict ≡ (J.judged judge.now self.old.drift result.header).verdict }
        ensures drift { self.new.drift ≡ (J.judged judge.now self.old.drift result.header).drift }
        ensures next { self.old.from + record_octets (header_from block.now self.old.from).eqs ≤ most_octets
            → self.new.from ≡ self.old.from + record_octets result.header.eqs }
    {
        let from = self.from;
        let header = header_from(block, from);
        let heard = judge.judge(self.drift, header);
        self.drift = heard.drift;
        self.from = self.from.saturating_add(record_octets(header.eqs));
        Turn {
            from,
            header,
            verdict: heard.verdict,
        }
    }
}
