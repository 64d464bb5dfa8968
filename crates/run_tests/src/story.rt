// Scenes of one card and one script, with their answers.
use crate::lost::{LostWrite, losses_of};
use crate::runs::{By, told};
use crate::words::PLAIN;
use std::alloc::Global;
use std::process::Abort;
use std::test::Fail;

// A scene as it grows, and what is answered to its lines.
#[derive(Drop)]
pub(crate) struct Story {
    alloc: Global,
    scene: String,
    answers: String,
    lines: usize,
}

impl Story {
    // A scene of the plain card, which loses these writes, and of a script that has no line yet.
    pub(crate) fn new(alloc: Global, lost: &[LostWrite]) -> Result<Story, Fail> {
        let losses = losses_of(alloc, lost)?;
        Ok(Story {
            alloc,
            scene: format!(in alloc; "{PLAIN}{losses}[[script]]\nname = 'a'\nlines = [\n")?,
            answers: String::from_str(alloc, "script a\n")?,
            lines: 0,
        })
    }

    // One line more, and its answer.
    pub(crate) fn add(&mut self, line: &str, answer: &str) -> Result<(), Fail> {
        self.lines = self.lines.saturating_add(1);
        let number = self.lines;
        let line = format!(in self.alloc; "  '{line}',\n")?;
        let answer = format!(in self.alloc; "{number} {answer}\n")?;
        self.scene.push_str(line.as_str())?;
        self.answers.push_str(answer.as_str())?;
        Ok(())
    }

    // The text of the run begins with these answers.
    pub(crate) fn expect(self, rt: &impl Abort, by: By) -> Result<(), Fail> {
        let (text, answers) = self.run(by)?;
        assert!(rt;
            text.as_slice().starts_with(answers.as_bytes()),
            "{by:?} {answers}"
        );
        Ok(())
    }

    // It is these answers and this history of the card.
    pub(crate) fn expect_all(self, rt: &impl Abort, by: By, history: &str) -> Result<(), Fail> {
        let (text, answers) = self.run(by)?;
        let rest = text.as_slice().strip_prefix(answers.as_bytes());
        assert!(rt;
            rest == Some(history.as_bytes()),
            "{by:?} {answers}{history}"
        );
        Ok(())
    }

    // The text of the run, and what it is to begin with.
    fn run(self, by: By) -> Result<(Vec<u8>, String), Fail> {
        let Story {
            alloc,
            mut scene,
            mut answers,
            lines: _,
        } = self;
        scene.push_str("]\n")?;
        answers.push_str("card A\n")?;
        Ok((told(alloc, by, scene.as_str())?, answers))
    }
}
