//! Laws of the lines of a script.
ghost use Rattle.std.specs.Prelude.{◌≡◌, ℕ, List, negsuc, Some};
ghost use Rattle.sim_link.specs.Lines.{SaysLine, SaysWords};
ghost use Rattle.sim_link.specs.Text.{line_words, line_text, HasText};
ghost use Rattle.sim_link.specs.Verbs.{name_of, verb_of};
ghost use Rattle.sim_link.specs.declared.kinds.Side.{Side};
ghost use Rattle.sim_link.specs.declared.line.Line.{Line};
ghost use Rattle.sim_link.specs.declared.line.Line.TheVariants.{Poll, PollAt};
ghost use Rattle.sim_link.specs.declared.verb.Verb.{Verb};

use crate::line::Line;

/// A text says at most one thing.
pub fn a_line_says_one_thing(text: &[u8])
    ensures { (one another : Line) → SaysLine text.now one → SaysLine text.now another → one ≡ another }
{
    let _line = Line::read(text);
}

/// Each verb is read from its own name: no two have the same.
#[tactic(auto, using(crate::proofs::VerbLemmas::verb_of_name))]
pub fn verbs_have_names_of_their_own()
    ensures { (verb : Verb) → verb_of (name_of verb) ≡ Some verb }
{}

/// The words that are printed of a line say the line.
#[tactic(auto, using(crate::proofs::ReadBack::says_words))]
pub fn printed_words_say_the_line()
    ensures { (line : Line) → HasText line → SaysWords (line_words line) line }
{}

/// The text that is printed of a line says the line, and so no other: its words are the ones that were joined.
#[tactic(auto, using(crate::proofs::PrintedLemmas::says_line))]
pub fn printed_text_says_the_line()
    ensures { (line : Line) → HasText line → SaysLine (line_text line) line }
{}

/// A line is read back from what `Line::to_text` prints of it.
pub fn a_printed_line_is_read_back<'a>(printed: &'a [u8]) -> Option<Line<'a>>
    ensures { (line : Line) → HasText line → printed.now ≡ line_text line → result ≡ Some line }
{
    Line::read(printed)
}

/// An instant before the start has no text that is read: of the values of a `Line`, a poll and a question at such an instant alone.
pub fn no_line_names_a_instant_before_the_start()
    ensures poll { (text : List ℕ) (side : Side) (back budget : ℕ) → SaysLine text (Poll side (negsuc back) budget) → ⊥ }
    ensures poll_at { (text : List ℕ) (side : Side) (back : ℕ) → SaysLine text (PollAt side (negsuc back)) → ⊥ }
{}
