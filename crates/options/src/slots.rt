// The slots that the words fill, and how a reading goes on.
ghost use Rattle.std.specs.Prelude.{◌≡◌, ◌<◌};
ghost use Rattle.options.specs.Slots.{awaiting as awaitingIn, begun as begunIn, command_read, counted as countedIn, filled as filledIn};
ghost use Rattle.options.specs.Slots.{number_of, options_ended as optionsEnded, refused as refusedBy, taken_at};

use crate::types::{Command, Reading, Refused, Slot, Span, Waiting, Wrong};

// Gives the place of `slot` among the slots.
fn number_of(slot: Slot) -> usize
    ensures { result ≡ number_of slot }
{
    slot as usize
}

impl Reading {
    // Gives how it stands before the first word.
    #[tactic(auto, unfolding(crate::specs::Slots::begun))]
    pub(crate) fn begun() -> Reading
        ensures { result ≡ begunIn }
    {
        Reading {
            count: 0,
            command: None,
            ended: false,
            waiting: None,
            filled: [None; 11],
        }
    }

    // Refuses the words for `wrong`, with `word` as the wrong word.
    #[tactic(auto, unfolding(crate::specs::Slots::refused))]
    pub(crate) fn refused(self, wrong: Wrong, word: Option<Span>) -> Refused
        ensures { result ≡ refusedBy self wrong word }
    {
        Refused {
            wrong,
            word,
            command: self.command,
            reading: self,
        }
    }

    // Counts one word more.
    #[tactic(auto, unfolding(crate::specs::Slots::counted))]
    pub(crate) fn counted(self) -> Reading
        requires { self.count < 64 }
        ensures { result ≡ countedIn self }
    {
        let mut after = self;
        after.count = self.count + 1;
        after
    }

    // Takes `command` as the command.
    #[tactic(auto, unfolding(crate::specs::Slots::command_read))]
    pub(crate) fn with_command(self, command: Command) -> Reading
        ensures { result ≡ command_read self command }
    {
        let mut after = self;
        after.command = Some(command);
        after
    }

    // Takes no option any more, after `--`.
    #[tactic(auto, unfolding(crate::specs::Slots::options_ended))]
    pub(crate) fn options_ended(self) -> Reading
        ensures { result ≡ optionsEnded self }
    {
        let mut after = self;
        after.ended = true;
        after
    }

    // Has `waiting` wait for the next word.
    #[tactic(auto, unfolding(crate::specs::Slots::awaiting))]
    pub(crate) fn awaiting(self, waiting: Option<Waiting>) -> Reading
        ensures { result ≡ awaitingIn self waiting }
    {
        let mut after = self;
        after.waiting = waiting;
        after
    }

    // Gives what `slot` was filled with.
    #[tactic(auto, unfolding(crate::specs::Slots::taken_at))]
    pub fn taken(self, slot: Slot) -> Option<Span>
        ensures { result ≡ taken_at self slot }
    {
        let filled = self.filled;
        filled[number_of(slot)]
    }

    // Fills `slot` with `span`.
    #[tactic(auto, unfolding(crate::specs::Slots::filled))]
    pub(crate) fn filled(self, slot: Slot, span: Span) -> Reading
        ensures { result ≡ filledIn self slot span }
    {
        let mut after = self;
        after.filled[number_of(slot)] = Some(span);
        after
    }
}
