//! Scenarios: files, and runs over them one after another.

use crate::crashes::asked::Asked;
use crate::crashes::texts::{Texts, number_of};
use crate::cut::Cut;
use crate::images::{left_by_crash, push_file, vault_of};
use std::alloc::Global;
use std::test::Fail;

/// How a run begins: the places of the run and of the image before it among all, and how it is cut.
#[derive(Clone, Copy, PartialEq, Eq)]
struct Start {
    run: usize,
    image: usize,
    cut: Cut,
}

/// A run: how it began, how it ended, and the place of the image behind its crash.
#[derive(Drop)]
struct Step {
    start: Start,
    end: String,
    image: usize,
}

/// Files, runs over them, and what was found: images, runs that were made, and the ways in which all of them ended.
#[derive(Drop)]
pub(crate) struct Scenario {
    files: String,
    runs: Vec<Asked>,
    images: Vec<String>,
    steps: Vec<Step>,
    ways: Vec<String>,
}

/// The place of the step that began so.
fn find(steps: &[Step], start: Start) -> Option<usize> {
    for (place, step) in steps.iter().enumerate() {
        if step.start == start {
            return Some(place);
        }
    }
    None
}

impl Scenario {
    /// Nothing stands, and nothing is run.
    pub(crate) fn new(alloc: Global) -> Scenario {
        Scenario {
            files: String::new(alloc),
            runs: Vec::new(alloc),
            images: Vec::new(alloc),
            steps: Vec::new(alloc),
            ways: Vec::new(alloc),
        }
    }

    /// Adds a file.
    pub(crate) fn add_file(&mut self, alloc: Global, path: &str, bytes: &[u8]) -> Result<(), Fail> {
        push_file(alloc, &mut self.files, path, bytes)
    }

    /// Adds a run behind the others.
    pub(crate) fn add_run(
        &mut self,
        alloc: Global,
        command: &str,
        input: Vec<u8>,
    ) -> Result<(), Fail> {
        self.runs.push(Asked::new(alloc, command, input)?)?;
        Ok(())
    }

    /// Makes a run that begins so. Answers how it ends, and the image behind its crash.
    fn made(&self, alloc: Global, texts: &Texts, start: Start) -> Result<(String, String), Fail> {
        let asked = self.runs.get(start.run).ok_or("no run")?;
        let image = self.images.get(start.image).ok_or("no image")?;
        let vault = vault_of(alloc, image.as_str(), start.cut)?;
        let end = asked.end_over(alloc, vault)?;
        let line = texts.line_of(alloc, end.code, end.written.as_slice())?;
        Ok((line, left_by_crash(alloc, end.vault, start.cut.pick)?))
    }

    /// The place of the step that begins so, which is made where it wasn't yet.
    fn step(&mut self, alloc: Global, texts: &Texts, start: Start) -> Result<usize, Fail> {
        if let Some(place) = find(self.steps.as_slice(), start) {
            return Ok(place);
        }
        let (end, image) = self.made(alloc, texts, start)?;
        let image = number_of(&mut self.images, image)?;
        let place = self.steps.len();
        self.steps.push(Step { start, end, image })?;
        Ok(place)
    }

    /// The way in which the runs end, of which the first are cut so.
    fn way(&mut self, alloc: Global, texts: &Texts, cuts: &[Cut]) -> Result<String, Fail> {
        let files = String::from_str(alloc, self.files.as_str())?;
        let mut image = number_of(&mut self.images, files)?;
        let mut way = String::new(alloc);
        for run in 0..self.runs.len() {
            let cut = cuts.get(run).copied().unwrap_or(Cut::at(0));
            let place = self.step(alloc, texts, Start { run, image, cut })?;
            let step = self.steps.get(place).ok_or("no step")?;
            way.push_str(if run == 0 { "" } else { " / " })?;
            way.push_str(step.end.as_str())?;
            image = step.image;
        }
        Ok(way)
    }

    /// The number of the way in which the runs end, of which the first are cut so, from 1 on. One that is new is added to what
    /// is said.
    pub(crate) fn number_of_way(
        &mut self,
        alloc: Global,
        texts: &Texts,
        cuts: &[Cut],
        said: &mut String,
    ) -> Result<usize, Fail> {
        let way = self.way(alloc, texts, cuts)?;
        let next = self.ways.len().saturating_add(1);
        let line = format!(in alloc; "way {next}: {way}\n")?;
        let number = number_of(&mut self.ways, way)?.saturating_add(1);
        if number == next {
            said.push_str(line.as_str())?;
        }
        Ok(number)
    }
}
