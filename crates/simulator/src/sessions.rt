//! Commands of clients.
use crate::client::NEGOTIATION;
use crate::printed::Printed;
use crate::refusal::Refusal;
use crate::sim::Sim;
use flush_barrier::SessionId;
use gate_journal::Slot;
use life::Step;

/// Whose bytes a session has.
#[derive(Clone, Copy)]
pub(crate) enum Voice {
    /// The script's own; what it is sent is printed as it is.
    Raw,
    /// A client's that negotiated by GO; what it is sent are replies.
    Client,
}

/// A session of the script, at the member at a slot.
#[derive(Clone, Copy)]
pub(crate) struct Speaker {
    pub(crate) slot: Slot,
    pub(crate) voice: Voice,
}

impl Sim {
    /// Whether the script speaks for a client in this session.
    pub(crate) fn is_spoken_for(&self, session: SessionId) -> bool {
        self.speakers
            .get(&session)
            .is_some_and(|speaker| matches!(speaker.voice, Voice::Client))
    }

    /// A client connects. A member that is none or has stopped, or a session that was there before, changes nothing.
    pub(crate) fn connect(
        &mut self,
        session: SessionId,
        member: u64,
        printed: &mut Printed,
    ) -> Result<(), Refusal> {
        if self.begins(session, member, Voice::Raw, printed)? {
            self.step(Step::HandOut { session }, printed)?;
        }
        Ok(())
    }

    /// A client connects and negotiates. A member that is none or has stopped, or a session that was there before, changes
    /// nothing.
    pub(crate) fn session(
        &mut self,
        session: SessionId,
        member: u64,
        printed: &mut Printed,
    ) -> Result<(), Refusal> {
        if !self.begins(session, member, Voice::Client, printed)? {
            return Ok(());
        }
        let piece = Vec::from_slice(self.alloc, &NEGOTIATION)?;
        self.step(Step::Bytes { session, piece }, printed)?
            .show(printed)?;
        let mut unheard = Printed::new(self.alloc);
        self.step(Step::HandOut { session }, &mut unheard)?;
        Ok(())
    }

    /// A session begins at the member at the slot of a number: whether it did.
    fn begins(
        &mut self,
        session: SessionId,
        member: u64,
        voice: Voice,
        printed: &mut Printed,
    ) -> Result<bool, Refusal> {
        let Some(at) = self.place(member) else {
            return Ok(false);
        };
        let Some(slot) = self.slot(at) else {
            return Ok(false);
        };
        if self.progress(at).is_none() {
            return Ok(false);
        }
        let begun = self.step(Step::Connect { session, at }, printed)?;
        begun.show(printed)?;
        if begun.is_taken() {
            let _none = self.speakers.insert(session, Speaker { slot, voice })?;
        }
        Ok(begun.is_taken())
    }

    /// The client of a session sends bytes, and what waits for it goes out.
    pub(crate) fn bytes(
        &mut self,
        session: SessionId,
        piece: Vec<u8>,
        printed: &mut Printed,
    ) -> Result<(), Refusal> {
        self.step(Step::Bytes { session, piece }, printed)?
            .show(printed)?;
        self.step(Step::HandOut { session }, printed)?;
        Ok(())
    }
}
