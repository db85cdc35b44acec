//! How a parser takes its bytes up.
use super::Parser;
use crate::parser::Head;
use crate::parser::announced::announced_by;
use crate::parser::counted::bytes_behind;
use crate::parser::line::{LineEnd, line_end};
use crate::parser::looked::seen;
use crate::parser::marker::{Marker, marker_at};
use crate::parser::stack::{Progress, enter, settle};
use crate::parser::stop::Stop;
use crate::value::Value;

impl Parser {
    ghost use Rattle.std.specs.Prelude.{◌≡◌, ◌≤◌, ℕ, length, true, false};
    ghost use Rattle.resp_core.specs.declared.parser.Head.TheVariants.{Fresh, Line, Bytes};
    ghost use Rattle.resp_core.specs.Head.{falls_short};
    ghost use Rattle.resp_core.specs.Standing.{Looks, KeepsNoMore, waiting};
    ghost use Rattle.resp_core.specs.Advancing.{Advances, Reaches, Keeps, Waits};

    /// Forgets what was handed out, once it is half of the buffer or more.
    #[tactic(auto, using(crate::proofs::Fronts::front_dropped))]
    pub(super) fn drop_front(&mut self)
        ensures keeps { Keeps self.old self.new }
        ensures half { self.new.front ≤ length (waiting self.new) }
    {
        let left = self.buffer.len() - self.front;
        if self.front >= left {
            self.buffer.copy_within(self.front.., 0);
            self.buffer.truncate(left);
            self.scanned -= self.front;
            self.front = 0;
        }
    }

    /// Whether counted bytes are missing. Those that are there are then taken up, as `next_value` does that finds them
    /// missing.
    pub(super) fn lacks_bytes(&mut self) -> bool
        ensures tells { result ≡ falls_short self.old.head (length (waiting self.old)) }
        ensures waits { result ≡ true → (levels : ℕ) → Waits levels self.old self.new }
        ensures same { result ≡ false → self.new ≡ self.old }
        ensures looks { Looks self.old self.new }
        ensures condition { self.new.condition ≡ self.old.condition }
        ensures no_more { KeepsNoMore self.old self.new }
        ensures limit { self.new.limit ≡ self.old.limit }
    {
        let Head::Bytes(_, count) = self.head else {
            return false;
        };
        let all = self.buffer.len();
        if (all - self.front) as u64 >= count {
            return false;
        }
        self.looked = seen(self.looked, all - self.scanned);
        self.scanned = all;
        true
    }

    /// The next value, which may nest so many levels deep.
    pub(super) fn next_value(&mut self, levels: u16) -> Result<Value, Stop>
        requires levels { levels ≤ self.old.limit }
        ensures reaches { Reaches levels result self.old self.new }
        ensures looks { Looks self.old self.new }
        ensures condition { self.new.condition ≡ self.old.condition }
        ensures no_more { KeepsNoMore self.old self.new }
        ensures limit { self.new.limit ≡ self.old.limit }
    {
        loop {
            if let Some(value) = self.advance(levels)? {
                return Ok(value);
            }
        }
    }

    /// A type byte, a line, or counted bytes. It answers the value that is then whole, if one is.
    fn advance(&mut self, levels: u16) -> Result<Option<Value>, Stop>
        requires levels { levels ≤ self.old.limit }
        ensures advances { Advances levels result self.old self.new }
        ensures looks { Looks self.old self.new }
        ensures condition { self.new.condition ≡ self.old.condition }
        ensures no_more { KeepsNoMore self.old self.new }
        ensures limit { self.new.limit ≡ self.old.limit }
    {
        match self.head {
            Head::Fresh => self.begin(levels),
            Head::Line(marker) => self.end_line(marker),
            Head::Bytes(marker, count) => self.end_bytes(marker, count),
        }
    }

    /// The type byte; the outermost value may nest so many levels deep.
    fn begin(&mut self, levels: u16) -> Result<Option<Value>, Stop>
        requires fresh { self.old.head ≡ Fresh }
        requires levels { levels ≤ self.old.limit }
        ensures advances { Advances levels result self.old self.new }
        ensures looks { Looks self.old self.new }
        ensures condition { self.new.condition ≡ self.old.condition }
        ensures no_more { KeepsNoMore self.old self.new }
        ensures limit { self.new.limit ≡ self.old.limit }
    {
        let start = self.front;
        if start == self.buffer.len() {
            return Err(Stop::Short);
        }
        let byte = self.buffer[start];
        self.looked = seen(self.looked, 1);
        self.scanned = start + 1;
        self.front = start + 1;
        if self.frames.len() >= levels as usize {
            return Err(Stop::Fault);
        }
        let Some(marker) = marker_at(byte) else {
            return Err(Stop::Fault);
        };
        self.head = Head::Line(marker);
        self.after_return = false;
        Ok(None)
    }

    /// The line, once its end is there.
    fn end_line(&mut self, marker: Marker) -> Result<Option<Value>, Stop>
        requires { self.old.head ≡ Line marker }
        ensures advances { (levels : ℕ) → Advances levels result self.old self.new }
        ensures looks { Looks self.old self.new }
        ensures condition { self.new.condition ≡ self.old.condition }
        ensures no_more { KeepsNoMore self.old self.new }
        ensures limit { self.new.limit ≡ self.old.limit }
    {
        let start = self.front;
        let searched = self.scanned - start;
        let length = match line_end(&self.buffer[start..], searched, self.after_return) {
            LineEnd::At(length) => length,
            LineEnd::GoesOn(after_return) => {
                let all = self.buffer.len();
                self.looked = seen(self.looked, all - self.scanned);
                self.scanned = all;
                self.after_return = after_return;
                return Err(Stop::Short);
            }
        };
        let end = start + length + 2;
        self.looked = seen(self.looked, end - self.scanned);
        self.scanned = end;
        self.front = end;
        self.head = Head::Fresh;
        let alloc = *self.buffer.allocator();
        let announced = announced_by(alloc, marker, &self.buffer[start..start + length])?;
        match enter(alloc, &mut self.frames, marker, announced)? {
            Progress::Whole(value) => Ok(Some(value)),
            Progress::On(head) => {
                self.head = head;
                Ok(None)
            }
        }
    }

    /// The counted bytes and their CR LF, once they are there.
    fn end_bytes(&mut self, marker: Marker, count: u64) -> Result<Option<Value>, Stop>
        requires { self.old.head ≡ Bytes marker count }
        ensures advances { (levels : ℕ) → Advances levels result self.old self.new }
        ensures looks { Looks self.old self.new }
        ensures condition { self.new.condition ≡ self.old.condition }
        ensures no_more { KeepsNoMore self.old self.new }
        ensures limit { self.new.limit ≡ self.old.limit }
    {
        let alloc = *self.buffer.allocator();
        let all = self.buffer.len();
        let taken = self.scanned - self.front;
        match bytes_behind(alloc, marker, count, &self.buffer[self.front..], taken) {
            Ok((value, rest)) => {
                let end = all - rest.len();
                self.looked = seen(self.looked, end - self.scanned);
                self.scanned = end;
                self.front = end;
                self.head = Head::Fresh;
                match settle(alloc, &mut self.frames, value)? {
                    Progress::Whole(value) => Ok(Some(value)),
                    Progress::On(head) => {
                        self.head = head;
                        Ok(None)
                    }
                }
            }
            Err(Stop::Short) => {
                self.looked = seen(self.looked, all - self.scanned);
                self.scanned = all;
                Err(Stop::Short)
            }
            Err(Stop::Fault) => Err(Stop::Fault),
            Err(Stop::Memory) => Err(Stop::Memory),
        }
    }
}
