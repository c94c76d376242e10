//! The five tables while a query is answered over them. After a refusal they have what was refused.
ghost use Rattle.std.specs.Prelude.{◌≡◌, None, Some, IfErr, IfNone, IfOk, IfSome, OnOk, IsOkUnless};
ghost use Rattle.dimension_tables.specs.Tables.{AreFresh, AreUnread, IsRefusedFor, KeepLines};
ghost use Rattle.dimension_tables.specs.Texts.{GivesUnlessFailed, TableTexts, dimensions_of};
ghost use Rattle.mode_folds.specs.Answered.{IsAnsweredOver};
ghost use Rattle.ssb_eval.specs.Evaluation.{Evaluates, ReadersHave, moded_answer_of};
ghost use Rattle.ssb_eval.specs.Tables.{IsFresh, IsUnreadStar, KeepsBroken, KeepsCause, KeepsUnknown};

use crate::facts::group_facts;
use crate::unknown::UnknownKey;
use batch_loader::Lines;
use cube_model::{DimRows, Fault};
use dimension_tables::{DimensionTables, RefusedLine};
use dimensions::Dims;
use mode_folds::Answered;
use mode_queries::ProperRef;
use std::alloc::Global;
use std::io::Read;
use std::marker::Model;

/// The dimensions of the tables, and the answer to a query over them.
#[derive(Drop)]
pub struct Evaluated {
    pub dims: Dims,
    pub answered: Answered,
}

/// The five tables, line by line, and what is kept of a refusal.
pub struct Tables<C: Read + Drop, S: Read + Drop, P: Read + Drop, D: Read + Drop, L: Read + Drop> {
    dimensions: DimensionTables<C, S, P, D>,
    lineorder: Lines<L>,
    broken: Option<DimRows>,
    unknown: Option<UnknownKey>,
}

// Written out, so that a proof has one call to follow where one is let go.
impl<C: Read + Drop, S: Read + Drop, P: Read + Drop, D: Read + Drop, L: Read + Drop> Drop
    for Tables<C, S, P, D, L> {
    fn drop(self) {
        let Tables {
            dimensions: _,
            lineorder: _,
            broken: _,
            unknown: _,
        } = self;
    }
}

impl<C: Read + Drop, S: Read + Drop, P: Read + Drop, D: Read + Drop, L: Read + Drop> Model
    for Tables<C, S, P, D, L> {
    ghost use Rattle.ssb_eval.specs.Tables.{StarLines};

    ghost Value = { StarLines };

    ghost view = { λ tables. record {
      dimensions = tables.dimensions;
      lineorder = tables.lineorder;
      broken = tables.broken;
      unknown = tables.unknown;
    } };
}

impl<C: Read + Drop, S: Read + Drop, P: Read + Drop, D: Read + Drop, L: Read + Drop> Tables<
    C,
    S,
    P,
    D,
    L,
> {
    /// The tables that five readers give. It can only fail when out of memory.
    pub fn new(
        alloc: Global,
        customer: C,
        supplier: S,
        part: P,
        date: D,
        lineorder: L,
    ) -> Result<Self, Fault>
        ensures unread { IfOk result (λ tables. (texts : TableTexts)
            → ReadersHave (C.remaining customer) (S.remaining supplier) (P.remaining part) (D.remaining date)
            (L.remaining lineorder) texts
            → IsUnreadStar tables texts) }
        ensures fresh { IfOk result IsFresh }
        ensures err { IsOkUnless result Fault.Memory }
    {
        Ok(Tables {
            dimensions: DimensionTables::new(alloc, customer, supplier, part, date)?,
            lineorder: Lines::new(alloc, lineorder)?,
            broken: None,
            unknown: None,
        })
    }

    /// Reads the four tables of the dimensions, and then checks their rows; checks the fact rows batch by batch, and
    /// folds them. The first refusal decides.
    pub(crate) fn evaluate(
        &mut self,
        alloc: Global,
        asked: ProperRef<'_>,
    ) -> Result<Evaluated, Fault>
        ensures over { IfOk result (λ found. IsAnsweredOver found.dims found.answered) }
        ensures evaluates { (texts : TableTexts) → IsUnreadStar self.old texts
            → Evaluates (moded_answer_of asked.entry) texts result }
        ensures cause { IsFresh self.old → KeepsCause self.new result }
        ensures whole { IsFresh self.old → OnOk result (self.new.broken ≡ None) }
        ensures unknown { (texts : TableTexts) → IsUnreadStar self.old texts → KeepsUnknown texts self.new }
    {
        let dims = self.read_dims(alloc)?;
        let Tables {
            lineorder,
            unknown,
            ..
        } = self;
        let answered = group_facts(alloc, &dims, asked, lineorder, unknown)?;
        Ok(Evaluated { dims, answered })
    }

    // Reads the four tables of the dimensions, and then checks their rows. Those that break a rule are kept.
    fn read_dims(&mut self, alloc: Global) -> Result<Dims, Fault>
        ensures dims { (texts : TableTexts) → AreUnread self.old.dimensions texts
            → GivesUnlessFailed (dimensions_of texts) result }
        ensures lines { IsFresh self.old → KeepLines self.new.dimensions }
        ensures rest { (self.new.lineorder ≡ self.old.lineorder) × (self.new.unknown ≡ self.old.unknown) }
        ensures broken { self.old.broken ≡ None → IfErr result (KeepsBroken self.new.broken) }
        ensures whole { OnOk result (self.new.broken ≡ self.old.broken) }
    {
        let rows = self.dimensions.rows(alloc)?;
        match Dims::build(alloc, &rows) {
            Ok(dims) => Ok(dims),
            Err(fault) => {
                self.broken = Some(rows);
                Err(fault)
            }
        }
    }

    /// The line for which a table of the dimensions is refused, of the first table that is.
    pub fn refused(&self) -> Option<RefusedLine<'_>>
        ensures some { IfSome result (λ line. IsRefusedFor self.now.dimensions line.axis line.text.now) }
        ensures none { IfNone result (AreFresh self.now.dimensions) }
    {
        self.dimensions.refused()
    }

    /// The line of the fact table that was read last. Where the table is refused, it is the line that is, except where
    /// that is too long or a read failed.
    pub fn fact_line(&self) -> &[u8]
        ensures { result.now ≡ self.now.lineorder.line }
    {
        self.lineorder.line()
    }

    /// The number of the line of the fact table that was read last, from 1, or 0 where none was.
    pub fn fact_number(&self) -> u64
        ensures { result ≡ self.now.lineorder.number }
    {
        self.lineorder.number()
    }

    /// The rows of the dimensions, where they break a rule.
    pub fn broken(&self) -> Option<&DimRows>
        ensures some { IfSome result (λ rows. self.now.broken ≡ Some rows.now) }
        ensures none { IfNone result (self.now.broken ≡ None) }
    {
        self.broken.as_ref()
    }

    /// The key for which a batch of the fact table is refused.
    pub fn unknown(&self) -> Option<UnknownKey>
        ensures { result ≡ self.now.unknown }
    {
        self.unknown
    }
}
