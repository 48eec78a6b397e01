//! The honest client.
use super::caller::Caller;
use smx_pdu::Header;
use smx_pdu::command::{ENQUIRE_LINK, RESPONSE, SUBMIT_SM};
use smx_pdu::status::ESME_ROK;

// How many requests it sends at once.
pub(crate) const REQUESTS: u32 = 10;

// The number of the enquiry behind them.
const ENQUIRY: u32 = 99;

// How many PDUs it hears at most.
const MOST: u32 = 100;

// How its requests were answered.
#[derive(Clone, Copy)]
pub(crate) struct Answers {
    // By request how many answers came.
    counts: [u32; 10],
    // How many of all answers had status 0.
    pub well: u32,
    // How many PDUs were no answer to a request.
    strange: u32,
}

impl Answers {
    const fn new() -> Answers {
        Answers {
            counts: [0; 10],
            well: 0,
            strange: 0,
        }
    }

    fn note(&mut self, header: Header) {
        let place = header.number.wrapping_sub(1) as usize;
        match self.counts.get_mut(place) {
            Some(count) if header.command == RESPONSE | SUBMIT_SM => {
                *count = count.saturating_add(1);
                if header.status == ESME_ROK {
                    self.well = self.well.saturating_add(1);
                }
            }
            _ => self.strange = self.strange.saturating_add(1),
        }
    }

    // Whether each request was answered.
    fn is_whole(&self) -> bool {
        self.counts.iter().all(|count| *count > 0)
    }

    // Whether each request was answered once, and nothing else came.
    pub(crate) fn is_once(&self) -> bool {
        self.strange == 0 && self.counts.iter().all(|count| *count == 1)
    }

    // The same, each with status 0.
    pub(crate) fn is_well(&self) -> bool {
        self.is_once() && self.well == REQUESTS
    }
}

impl Caller {
    // Sends the requests, hears their answers, and then what comes before an enquiry is answered.
    pub(crate) fn exchange(&mut self) -> Answers {
        let mut answers = Answers::new();
        for number in 1..=REQUESTS {
            self.submit(number);
        }
        for _ in 0..MOST {
            if answers.is_whole() {
                break;
            }
            let Some(header) = self.hear() else {
                return answers;
            };
            answers.note(header);
        }
        self.say_header(ENQUIRE_LINK, 0, ENQUIRY);
        for _ in 0..MOST {
            let Some(header) = self.hear() else {
                break;
            };
            if header.number == ENQUIRY {
                break;
            }
            answers.note(header);
        }
        answers
    }
}
