//! A sink that keeps each report.
ghost use Rattle.std.specs.Prelude.{◌≡◌, ◌++◌, ◌∷◌, [], OnErr, OnOk};

use crate::searcher::Searcher;
use crate::sink::Sink;
use crate::sinks::kept_lines::{KeptLines, ReportKind};
use crate::sinks::kept_match::KeptMatch;
use grep_report::{SearchError, SinkContext, SinkFinish, SinkMatch};
use std::alloc::{AllocError, Allocator, Global};
use std::marker::Model;

/// Keeps each report, in order: the matches, and the lines around them. It never ends a search; the
/// only error is being out of memory for a report, and leaves those that were kept.
#[derive(Drop)]
pub struct Reports<A: Allocator + Copy = Global> {
    alloc: A,
    reports: Vec<KeptLines<A>, A>,
}

/// A clause sees what was kept.
impl<A: Allocator + Copy> Model for Reports<A> {
    ghost use Rattle.std.specs.Prelude.{List};
    ghost use Rattle.grep_searcher.specs.declared.sinks.kept_lines.ReportKind.{ReportKind};
    ghost use Rattle.grep_searcher.specs.MatchHandlers.{KeptReport};

    ghost Value = { List (ReportKind × KeptReport) };

    ghost view = { λ s. s.reports.items };
}

impl<A: Allocator + Copy> Reports<A> {
    /// A sink that has kept none, and takes memory from `alloc`.
    pub fn new(alloc: A) -> Reports<A>
        ensures { result ≡ [] }
    {
        Reports {
            alloc,
            reports: Vec::new(alloc),
        }
    }

    /// The reports that were kept so far, in order.
    pub fn reports(&self) -> &[KeptLines<A>]
        ensures { result.now ≡ self.now }
    {
        self.reports.as_slice()
    }

    /// Gives what was kept.
    pub fn into_reports(self) -> Vec<KeptLines<A>, A>
        ensures { result.items ≡ self }
    {
        let Reports { reports, alloc: _ } = self;
        reports
    }

    // Keeps a report.
    fn keep(&mut self, kind: ReportKind, lines: KeptMatch<A>) -> Result<(), AllocError>
        ensures kept { OnOk result (self.new ≡ self.old ++ (kind, lines) ∷ []) }
        ensures same { OnErr result (self.new ≡ self.old) }
    {
        self.reports.push(KeptLines::new(kind, lines))?;
        Ok(())
    }
}

impl<A: Allocator + Copy> Sink for Reports<A> {
    ghost use Rattle.grep_searcher.specs.KeptReports.{IsReportsStep};

    type Error = SearchError<A>;

    ghost step = { IsReportsStep };

    ghost may_call = { λ _. Unit {0} };

    fn begin<B: Allocator + Copy>(&mut self, _: &Searcher<B>) -> Result<bool, SearchError<A>> {
        Ok(true)
    }

    fn matched<B: Allocator + Copy>(
        &mut self,
        _: &Searcher<B>,
        found: &SinkMatch<'_>,
    ) -> Result<bool, SearchError<A>> {
        let kept = KeptMatch::new(self.alloc, found)?;
        self.keep(ReportKind::Match, kept)?;
        Ok(true)
    }

    fn context<B: Allocator + Copy>(
        &mut self,
        _: &Searcher<B>,
        line: &SinkContext<'_>,
    ) -> Result<bool, SearchError<A>> {
        let kept = KeptMatch::of_context(self.alloc, line)?;
        self.keep(ReportKind::Context(*line.kind()), kept)?;
        Ok(true)
    }

    fn context_break<B: Allocator + Copy>(
        &mut self,
        _: &Searcher<B>,
    ) -> Result<bool, SearchError<A>> {
        Ok(true)
    }

    fn binary_data<B: Allocator + Copy>(
        &mut self,
        _: &Searcher<B>,
        _: u64,
    ) -> Result<bool, SearchError<A>> {
        Ok(true)
    }

    fn finish<B: Allocator + Copy>(
        &mut self,
        _: &Searcher<B>,
        _: &SinkFinish,
    ) -> Result<(), SearchError<A>> {
        Ok(())
    }
}
