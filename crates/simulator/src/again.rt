//! What a script played is lived once more as one life, by the call that the theorem is about.
ghost use Rattle.std.specs.Prelude.{◌<◌, ◌≤◌};

use crate::refusal::Refusal;
use crate::sim::Sim;
use disk_model::Cut;
use life::{Answer, Answers, Deed, Era, Lived, live};
use std::alloc::Global;
use std::io::Write;
use std::mem;
use volume::Geometry;
use world::Told;

/// What was played since a chain began: the eras that are over, and the deeds since.
#[derive(Drop)]
pub(crate) struct Kept {
    alloc: Global,
    geometry: Geometry,
    members: u8,
    eras: Vec<Era>,
    deeds: Vec<Deed>,
    /// The answers, a line each. The deed in which a device call met its stop has none.
    answers: Vec<u8>,
    /// What was cut, until a disk returns, and the place of a member that is recorded then.
    cut: Option<(Cut, usize)>,
    /// Whether a recovery was refused. A life does it again by itself, with nothing armed any more.
    is_broken_off: bool,
}

impl Kept {
    /// A chain of so many members begins.
    pub(crate) fn new(alloc: Global, geometry: Geometry, members: u8) -> Kept {
        Kept {
            alloc,
            geometry,
            members,
            eras: Vec::new(alloc),
            deeds: Vec::new(alloc),
            answers: Vec::new(alloc),
            cut: None,
            is_broken_off: false,
        }
    }

    /// Something is to happen at a device call to come.
    pub(crate) fn add_event(&mut self, arming: Deed) -> Result<(), Refusal> {
        let taken = Answer::Taken(Told::Out(Vec::new(self.alloc)));
        self.add_deed(arming, Some(&taken))
    }

    /// A deed was done. Without an answer a device call met its stop in it.
    pub(crate) fn add_deed(&mut self, deed: Deed, answer: Option<&Answer>) -> Result<(), Refusal> {
        self.deeds.push(deed)?;
        match answer {
            Some(answer) => add_line(&mut self.answers, answer),
            None => Ok(()),
        }
    }

    /// Everything was cut, where the member at a place was recorded.
    pub(crate) fn cut(&mut self, cut: Cut, survivor: usize) {
        self.cut = Some((cut, survivor));
    }

    /// The disks at these places returned: the era is over.
    pub(crate) fn returned(&mut self, returned: Vec<usize>) -> Result<(), Refusal> {
        let deeds = mem::replace(&mut self.deeds, Vec::new(self.alloc));
        let cut = match self.cut.take() {
            Some((cut, _)) => cut,
            None => Cut::All,
        };
        Ok(
            self.eras.push(Era {
                deeds,
                cut,
                returned,
            })?,
        )
    }

    /// A recovery was refused.
    pub(crate) fn broken_off(&mut self) {
        self.is_broken_off = true;
    }

    /// Lives it once more, from whose last era the member at a place returns if nobody did yet, and tells whether each deed is answered as it
    /// was.
    fn live<T: Write>(&mut self, survivor: usize, told: &mut T) -> Result<(), Refusal> {
        if self.is_broken_off {
            return Ok(writeln!(
                told,
                "not lived again: a recovery was refused, which a life does again by itself"
            )?);
        }
        let survivor = match self.cut {
            Some((_, survivor)) => survivor,
            None => survivor,
        };
        self.returned(vec![in self.alloc; survivor]?)?;
        let eras = self.eras.len();
        let mut answers = Vec::new(self.alloc);
        self.answer(&mut answers)?;
        let as_before = answers.as_slice() == self.answers.as_slice();
        let outcome = if as_before { "as before" } else { "otherwise" };
        Ok(writeln!(told, "lived again: {eras} eras, answered {outcome}")?)
    }

    /// The answers of the life that these eras are, a line each.
    fn answer(&self, text: &mut Vec<u8>) -> Result<(), Refusal> {
        if self.members == 0 || self.members > 8 {
            return Ok(());
        }
        let answers = answers_of(self.alloc, self.geometry, self.members, &self.eras)?;
        for era in &answers {
            for answer in &era.items {
                add_line(text, answer)?;
            }
        }
        Ok(())
    }
}

/// What a life of these eras answers.
fn answers_of(
    alloc: Global,
    geometry: Geometry,
    members: u8,
    eras: &[Era],
) -> Result<Vec<Answers>, Refusal>
    requires some { 0 < members }
    requires few { members ≤ 8 }
{
    let Ok(lived) = live(alloc, geometry, members, eras) else {
        return Err(Refusal::Memory);
    };
    let Lived { managed, answers } = lived;
    managed.abandon();
    Ok(answers)
}

/// Adds an answer as a line.
fn add_line(text: &mut Vec<u8>, answer: &Answer) -> Result<(), Refusal> {
    Ok(writeln!(text, "{answer:?}")?)
}

impl Sim {
    /// Lives what was kept once more, and tells what came of it.
    pub(crate) fn tell_again<T: Write>(&mut self, told: &mut T) -> Result<(), Refusal> {
        let survivor = self.survivor();
        match self.kept.take() {
            Some(mut kept) => kept.live(survivor, told),
            None => Ok(()),
        }
    }
}
