// The rules of plan texts in words.
use crate::showing::Allowed;
use lexer::TextFault;
use process::LAST_MOTION;
use std::fmt;

// The rule that a refused text breaks, at its end or before.
#[derive(Clone, Copy)]
pub struct Rule {
    pub fault: TextFault,
    pub at_end: bool,
}

impl fmt::Display for Rule {
    fn fmt<W: fmt::Write>(&self, f: &mut fmt::Formatter<W>) -> fmt::Result {
        match self.fault {
            TextFault::TooLong => write!(f, "The text is too long: it may have 16,384 bytes."),
            TextFault::BadToken => write!(
                f,
                "Only ( ) space, line feed, a to z and 0 to 9 may stand in a text, and a word has at most 8 letters and digits."
            ),
            TextFault::Unexpected if self.at_end => write!(
                f,
                "The text ends before its plan does: something is missing here."
            ),
            TextFault::Unexpected => write!(
                f,
                "This may not stand here. A plan is (plan NAME TERM); a term is (end), (do MOTION TERM), (tau TERM), (or TERM TERM), (rec NAME TERM) or (go NAME)."
            ),
            TextFault::NoMotion => {
                let all = [true; LAST_MOTION as usize];
                write!(
                    f,
                    "There is no such motion. The motions are{}.",
                    Allowed(&all)
                )
            }
            TextFault::NotBound => write!(f, "No rec around this go has that name."),
            TextFault::NotGuarded => write!(
                f,
                "No do stands between this go and its rec, so the loop could turn without a motion."
            ),
            TextFault::TooManyForms => write!(f, "This is the 65th form: a plan has at most 64."),
            TextFault::ListShort => write!(
                f,
                "There are more forms than the list of records holds."
            ),
        }
    }
}
