//! Sections, read.
ghost use Rattle.std.specs.Prelude.{◌≡◌, ◌≢◌, ◌≤◌, ◌++◌, ◌∷◌, List, [], map, Ok, Err, OnOk, IfOk, IfErr};
ghost use Rattle.kernel_pattern.specs.declared.section.Section.{Section as Decided};
ghost use Rattle.kernel_pattern.specs.Pattern.{IsNameWithin};
ghost use Rattle.pattern_text.specs.LineText.{IsLine};
ghost use Rattle.pattern_text.specs.PatternsText.{may_follow, begun, section_in, with_exit_in, with_fate_in, may_stand, with_line, line_here, turns_here, taken_line, taken_turns, patterns_of};
ghost use Rattle.pattern_text.specs.Courses.{course_of};
ghost use Rattle.pattern_text.specs.TurnsText.{turns_of};
ghost use Rattle.pattern_text.specs.PatternsWriting.{patterns_text};
ghost use Rattle.pattern_text.specs.Written.{AreSections};

use crate::PatternLine;
use crate::turns_line::{read_turns, says_turns};
use kernel_pattern::Section;
use lines_text::{TakesLines, TextRefusal, read_lines};
use std::alloc::{AllocError, Global};
use std::mem;
use vocabulary::{Fate, Name};

/// What was read of a text: the sections before this one, and this one.
#[derive(Drop)]
struct PatternsReader {
    done: Vec<Section>,
    section: Section,
    /// The last number in this section.
    last: u32,
    /// Whether the call with that number was made to fail.
    has_failed: bool,
    /// Whether no line of this section was read.
    is_fresh: bool,
}

impl PatternsReader {
    ghost use Rattle.pattern_text.specs.Reader.{seen};

    fn new(alloc: Global) -> Self
        ensures { seen result ≡ begun [] }
    {
        PatternsReader {
            done: Vec::new(alloc),
            section: Section::new(alloc),
            last: 0,
            has_failed: false,
            is_fresh: true,
        }
    }

    /// Whether an exit or a fate at this call may come next: numbers do not fall, and nothing follows a fate within its
    /// number.
    fn may_follow(&self, number: u32) -> bool
        ensures { result ≡ may_follow self.now.last self.now.has_failed number }
    {
        self.last < number || (number == self.last && !self.has_failed)
    }

    fn add_exit(&mut self, number: u32, name: Name) -> Result<(), AllocError>
        requires number { 1 ≤ number }
        requires within { IsNameWithin name }
        ensures { OnOk result (seen self.new ≡ with_exit_in number name (seen self.old)) }
    {
        self.section.pattern.add_exit(number, name)?;
        self.last = number;
        self.has_failed = false;
        self.is_fresh = false;
        Ok(())
    }

    fn set_fate(&mut self, number: u32, fate: Fate) -> Result<(), AllocError>
        requires { 1 ≤ number }
        ensures { OnOk result (seen self.new ≡ with_fate_in number fate (seen self.old)) }
    {
        self.section.pattern.set_fate(number, fate)?;
        self.last = number;
        self.has_failed = true;
        self.is_fresh = false;
        Ok(())
    }

    fn begin_section(&mut self, alloc: Global) -> Result<(), AllocError>
        ensures { OnOk result (seen self.new ≡ begun ((seen self.old).done ++ section_in (seen self.old) ∷ [])) }
    {
        let section = mem::replace(&mut self.section, Section::new(alloc));
        self.done.push(section)?;
        self.last = 0;
        self.has_failed = false;
        self.is_fresh = true;
        Ok(())
    }

    /// Whether a line may stand here.
    fn allows(&self, line: &PatternLine) -> bool
        ensures { result ≡ may_stand line.now (seen self.now) }
    {
        match line {
            PatternLine::Exit(number, _) => self.may_follow(*number),
            PatternLine::Fail(number, _) => self.may_follow(*number),
            PatternLine::Next => true,
        }
    }

    /// Adds a line. The only refusal is want of memory.
    fn add(&mut self, alloc: Global, line: &PatternLine) -> Result<(), AllocError>
        requires { IsLine line.now }
        ensures { OnOk result (seen self.new ≡ with_line line.now (seen self.old)) }
    {
        match line {
            PatternLine::Exit(number, name) => self.add_exit(*number, *name),
            PatternLine::Fail(number, fate) => self.set_fate(*number, *fate),
            PatternLine::Next => self.begin_section(alloc),
        }
    }

    /// Whether a line may stand here, or why it is refused. It takes no memory, so it never reports that.
    fn line_here(&self, number: usize, line: &PatternLine) -> Result<(), TextRefusal>
        ensures { result ≡ line_here number (seen self.now) line.now }
    {
        if self.allows(line) {
            Ok(())
        } else {
            Err(TextRefusal::Order(number))
        }
    }

    /// Whether a line says turns that may stand here, or why it is refused. It takes no memory, so it never reports that.
    fn turns_here(&self, number: usize, line: &[u8]) -> Result<(), TextRefusal>
        ensures { result ≡ turns_here number (seen self.now) (turns_of line.now) }
    {
        if !says_turns(line) {
            return Err(TextRefusal::Line(number));
        }
        if self.is_fresh {
            Ok(())
        } else {
            Err(TextRefusal::Order(number))
        }
    }

    /// Adds the line with this number where it may stand here.
    fn take_line(
        &mut self,
        alloc: Global,
        number: usize,
        line: &PatternLine,
    ) -> Result<(), TextRefusal>
        requires { IsLine line.now }
        ensures ok { OnOk result (taken_line number (seen self.old) line.now ≡ Ok (seen self.new)) }
        ensures err { IfErr result (λ e. e ≢ TextRefusal.Memory → taken_line number (seen self.old) line.now ≡ Err e) }
    {
        self.line_here(number, line)?;
        self.add(alloc, line)?;
        Ok(())
    }

    /// Adds the turns of the line with this number where it says some and may stand here.
    fn take_turns(&mut self, alloc: Global, number: usize, line: &[u8]) -> Result<(), TextRefusal>
        ensures ok { OnOk result (taken_turns number (seen self.old) (turns_of line.now) ≡ Ok (seen self.new)) }
        ensures err { IfErr result (λ e. e ≢ TextRefusal.Memory → taken_turns number (seen self.old) (turns_of line.now) ≡ Err e) }
    {
        self.turns_here(number, line)?;
        self.section.turns = read_turns(alloc, line)?;
        self.is_fresh = false;
        Ok(())
    }

    /// All sections.
    fn all(self) -> Result<Vec<Section>, AllocError>
        ensures { IfOk result (λ sections. map course_of sections.items ≡ (seen self).done ++ section_in (seen self) ∷ []) }
    {
        let PatternsReader {
            done: mut sections,
            section,
            last: _,
            has_failed: _,
            is_fresh: _,
        } = self;
        sections.push(section)?;
        Ok(sections)
    }
}

impl TakesLines for PatternsReader {
    ghost use Rattle.std.specs.Prelude.{List, map};
    ghost use Rattle.pattern_text.specs.Courses.{Course, course_of};
    ghost use Rattle.pattern_text.specs.PatternsText.{Reading, taken, finished};
    ghost use Rattle.pattern_text.specs.Reader.{seen};

    type Value = Vec<Section>;

    ghost Reading = { Reading };

    ghost seen = { seen };

    ghost taken = { taken };

    ghost Meaning = { List Course };

    ghost meaning = { λ sections. map course_of sections.items };

    ghost finished = { finished };

    fn take(&mut self, alloc: Global, number: usize, line: &[u8]) -> Result<(), TextRefusal> {
        match PatternLine::read(line) {
            Some(line) => self.take_line(alloc, number, &line),
            None => self.take_turns(alloc, number, line),
        }
    }

    fn finish(self, _number: usize) -> Result<Vec<Section>, TextRefusal> {
        Ok(self.all()?)
    }
}

/// Reads sections: `N exit NAME` for an exit before the N-th call, N from 1, `N fail FATE` for its failure, and between
/// sections a line `next`. Names are `wI.C.N` of a Starting or Ready worker, `dI.C.N` of a Draining one and `mI` of a
/// master. In a section N does not fall, and within one N there is at most one `fail`, which is the last. The first line
/// of a section may be `turns TEXT`, a letter `n` or `o` for each turn of the new and of the old master. The empty text
/// is one section with no line, and the very last newline may be missing.
///
/// The first faulty line is named: X1 for its form, else X2 for its place. Any bytes may come.
#[tactic(auto, using(crate::proofs::Again::read_again))]
pub fn read_patterns(alloc: Global, text: &[u8]) -> Result<Vec<Section>, TextRefusal>
    ensures ok { IfOk result (λ sections. patterns_of text.now ≡ Ok (map course_of sections.items)) }
    ensures err { IfErr result (λ e. e ≢ TextRefusal.Memory → patterns_of text.now ≡ Err e) }

    // What is written of one section or more is read as these.
    ensures again { (written : List Decided) → written ≢ [] → AreSections written → text.now ≡ patterns_text written → patterns_of text.now ≡ Ok (map course_of written) }
{
    read_lines(alloc, PatternsReader::new(alloc), text)
}
