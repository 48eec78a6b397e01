//! Lines on their way to whoever reads them.

use smx_config::{Config, LogForm, LogLevel};
use smx_notice::{Form, Level, Notice, RunNews, spell};
use std::alloc::{AllocError, Global};
use std::collections::VecDeque;
use std::fmt;
use std::io::{self, Write};
use std::rt::Clock;
use std::sync::{Condvar, Mutex, Wait};
use std::time::{Duration, SystemTime, UNIX_EPOCH};

/// The most lines that wait.
const MOST: usize = 4_096;

/// Once lines were left out, others are taken again where no more than so many wait.
const FEW: usize = MOST / 2;

/// How long the end waits for those that are left, in milliseconds.
const PATIENCE: u64 = 1_000;

/// The milliseconds since 1970-01-01 UTC; 0 where the system doesn't say.
pub fn wall<R: Clock>(rt: &R) -> u64 {
    let Ok(now) = SystemTime::now(rt) else {
        return 0;
    };
    match now.duration_since(UNIX_EPOCH) {
        Ok(passed) => u64::try_from(passed.as_millis()).unwrap_or(0),
        Err(_) => 0,
    }
}

// How lines are written, and which.
#[derive(Clone, Copy)]
struct Style {
    // None: as they are said.
    form: Option<Form>,
    least: Level,
}

// How lines are written by this configuration.
fn style_of(config: &Config) -> Style {
    let form = match config.log {
        LogForm::Text => Form::Text,
        LogForm::Json => Form::Json,
        LogForm::Journal => Form::Journal,
    };
    let least = match config.log_level {
        LogLevel::Error => Level::Error,
        LogLevel::Warn => Level::Warn,
        LogLevel::Info => Level::Info,
    };
    Style {
        form: Some(form),
        least,
    }
}

#[derive(Drop)]
enum Line {
    // With its end.
    Said(String),
    // So many lines found no place here, the last one at this moment.
    LeftOut { count: u64, moment: u64 },
}

// What waits.
#[derive(Drop)]
struct Waiting {
    style: Style,
    lines: VecDeque<Line>,
    // Lines that found no place, behind all that wait, and the moment of the last one.
    left_out: u64,
    moment: u64,
    // One was taken, and isn't written yet.
    writing: bool,
    // No further line comes.
    closed: bool,
}

impl Waiting {
    fn is_empty(&self) -> bool {
        self.lines.is_empty() && self.left_out == 0
    }

    fn is_written(&self) -> bool {
        self.is_empty() && !self.writing
    }

    fn push(&mut self, line: Line) -> bool {
        self.lines.len() < MOST && self.lines.push_back(line).is_ok()
    }

    // Puts the line that tells of those left out, where there is room again: whether none is left
    // out now.
    fn settle(&mut self) -> bool {
        let (count, moment) = (self.left_out, self.moment);
        if count > 0 && self.lines.len() <= FEW && self.push(Line::LeftOut { count, moment }) {
            self.left_out = 0;
        }
        self.left_out == 0
    }

    // Puts a line of this moment, or leaves it out. None is one for which there was no memory.
    fn add(&mut self, line: Option<String>, moment: u64) {
        let has_place = match line {
            Some(text) => self.settle() && self.push(Line::Said(text)),
            None => false,
        };
        if !has_place {
            self.left_out = self.left_out.saturating_add(1);
            self.moment = moment;
        }
    }

    // The next line, which is being written from now on.
    fn take(&mut self) -> Option<Line> {
        if self.lines.is_empty() {
            self.settle();
        }
        let line = self.lines.pop_front();
        self.writing = line.is_some();
        line
    }
}

// A notice of this moment as a line with its end, in this form or as it is. None where there is no memory.
fn spelled(alloc: Global, form: Option<Form>, moment: u64, notice: Notice<'_>) -> Option<String> {
    match form {
        Some(form) => spell(alloc, form, moment, notice).ok(),
        None => format!(in alloc; "{notice}\n").ok(),
    }
}

/// Lines that wait to be written by a thread of their own. Whoever says a line never waits for whoever
/// reads it: where 4,096 wait it is left out, and how many were is a line itself, once there is room.
#[derive(Drop)]
pub struct Log {
    alloc: Global,
    waiting: Mutex<Waiting>,
    // A line waits, or the end is near.
    came: Condvar,
    // A line was written.
    gone: Condvar,
}

impl Log {
    // Every line is written, in this form, or as it is said.
    pub(crate) fn new(alloc: Global, form: Option<Form>) -> Result<Log, AllocError> {
        let waiting = Waiting {
            style: Style {
                form,
                least: Level::Info,
            },
            lines: VecDeque::with_capacity(alloc, MOST)?,
            left_out: 0,
            moment: 0,
            writing: false,
            closed: false,
        };
        Ok(Log {
            alloc,
            waiting: Mutex::new(waiting),
            came: Condvar::new(),
            gone: Condvar::new(),
        })
    }

    /// From now on notices are written in the form and from the level on that this configuration says, and not
    /// as they are.
    pub fn write_by<R: Wait>(&self, rt: &R, config: &Config) {
        self.waiting.lock(rt).style = style_of(config);
    }

    // How lines are written now.
    fn style<R: Wait>(&self, rt: &R) -> Style {
        self.waiting.lock(rt).style
    }

    // Whether a notice of its level is written.
    pub(crate) fn passes<R: Wait>(&self, rt: &R, notice: Notice<'_>) -> bool {
        notice.passes(self.style(rt).least)
    }

    fn add<R: Wait>(&self, rt: &R, line: Option<String>, moment: u64) {
        self.waiting.lock(rt).add(line, moment);
        self.came.notify_one();
    }

    /// Says a notice of this moment, in milliseconds since 1970-01-01 UTC, where its level is written.
    pub fn tell<R: Wait>(&self, rt: &R, moment: u64, notice: Notice<'_>) {
        let style = self.style(rt);
        if notice.passes(style.least) {
            let line = spelled(self.alloc, style.form, moment, notice);
            self.add(rt, line, moment);
        }
    }

    /// Says a line as it is.
    pub fn say<R: Wait, N: fmt::Display + Drop>(&self, rt: &R, words: N) {
        let line = format!(in self.alloc; "{words}\n").ok();
        self.add(rt, line, 0);
    }

    // The next line, once there is one, and how lines are written; None at the end.
    fn next<R: Wait>(&self, rt: &R) -> Option<(Line, Style)> {
        let mut waiting = self.waiting.lock(rt);
        waiting.writing = false;
        self.gone.notify_one();
        let mut waiting = self
            .came
            .wait_while(rt, waiting, |w| w.is_empty() && !w.closed);
        let style = waiting.style;
        Some((waiting.take()?, style))
    }

    // Writes a line.
    fn write_line<W: Write>(&self, writer: &mut W, line: &Line, style: Style) -> io::Result<()> {
        match line {
            Line::Said(text) => writer.write_all(text.as_bytes()),
            Line::LeftOut { count, moment } => {
                let notice = Notice::Run(RunNews::Unwritten(*count));
                match spelled(self.alloc, style.form, *moment, notice) {
                    Some(text) => writer.write_all(text.as_bytes()),
                    None => writeln!(writer, "{notice}"),
                }
            }
        }
    }

    /// Writes each line that is said, until the end. A fault of the writer loses the line.
    pub fn write_to<R: Wait, W: Write>(&self, rt: &R, writer: &mut W) {
        for _ in rt.forever() {
            let Some((line, style)) = self.next(rt) else {
                return;
            };
            let _ = self.write_line(writer, &line, style);
        }
    }

    /// The end: waits until each line is written, one second at most.
    pub fn finish<R: Wait + Clock>(&self, rt: &R) {
        let mut waiting = self.waiting.lock(rt);
        waiting.closed = true;
        self.came.notify_one();
        let time = Duration::from_millis(PATIENCE);
        let _ = self
            .gone
            .wait_timeout_while(rt, waiting, time, |w| !w.is_written());
    }
}
