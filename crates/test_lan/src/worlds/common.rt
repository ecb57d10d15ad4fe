//! Scripts as texts, each line with what it writes after it.
//!
//!     bind A 0 48896         a line of the script
//!     > ok                   a line that is written
//!     ! line 5: bad event    the last line that is written, where the run ends there with status 1
//!     ==                     alone, between two scripts
//!     # noise is dropped     what the lines after it show
//!
//! At the end of a line `{2000*00}` stands for 2000 times `00`, and `{end}` for a line without its end.
use std::alloc::{AllocError, Global};
use std::test::Fail;

/// Scripts: what they show, the lines before each of them, and a text of their own.
pub type Row = (&'static str, &'static [&'static str], &'static str);

/// A script, and what it is to write with which status.
#[derive(Drop)]
pub struct Case {
    pub script: String,
    pub output: String,
    pub status: u8,
}

impl Case {
    /// What a text says after these.
    pub fn new(alloc: Global, before: &[&str], text: &str) -> Result<Case, AllocError> {
        let mut case = Case {
            script: String::new(alloc),
            output: String::new(alloc),
            status: 0,
        };
        for part in before {
            case.take(part)?;
        }
        case.take(text)?;
        Ok(case)
    }

    // No `lines`: a carriage return at the end of a line belongs to the script.
    fn take(&mut self, text: &str) -> Result<(), AllocError> {
        for line in text.split_terminator('\n') {
            match line.split_once(' ') {
                Some((verb @ (">" | "!"), written)) => {
                    if verb == "!" {
                        self.status = 1;
                    }
                    push_line(&mut self.output, written)?;
                }
                Some(("#", _)) => {}
                _ => push_line(&mut self.script, line)?,
            }
        }
        Ok(())
    }
}

/// Puts a line after others, its repetition written out.
pub fn push_line(text: &mut String, line: &str) -> Result<(), AllocError> {
    let Some((front, rest)) = line.split_once('{') else {
        text.push_str(line)?;
        return text.push_str("\n");
    };
    text.push_str(front)?;
    // What is left otherwise is `{end}`.
    if let Some((count, byte)) = rest.split_once('*') {
        for _ in 0..count.parse::<u32>().unwrap_or(0) {
            text.push_str(byte.trim_end_matches('}'))?;
        }
        text.push_str("\n")?;
    }
    Ok(())
}

/// Says that an allocation was refused: `tools/try-proved-without-memory`, which has each one refused in turn, looks for it.
pub fn tell(rt: &HostRuntime, what: &str) -> Result<(), Fail> {
    println!(rt; "no memory: {what}")?;
    Ok(())
}

/// What stands before the first of these, and after it.
pub fn cut<'a>(text: &'a str, at: &str) -> (&'a str, &'a str) {
    text.split_once(at).unwrap_or((text, ""))
}
