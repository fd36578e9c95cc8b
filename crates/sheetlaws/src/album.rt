// Sheets under their names.
use cells::gray::Gray;
use morphology::standing::Standing;
use std::alloc::{AllocError, Global};

// A sheet and its name. Two names may be those of equal sheets.
#[derive(Drop)]
pub struct Picture {
    pub name: Standing,
    pub cells: Vec<Gray>,
}

// Pictures, each of another name.
#[derive(Drop)]
pub struct Album {
    pictures: Vec<Picture>,
}

impl Album {
    // An album without pictures.
    pub fn new(heap: Global) -> Album {
        Album {
            pictures: Vec::new(heap),
        }
    }

    // Puts a picture behind those that are there.
    pub fn add(&mut self, name: Standing, cells: Vec<Gray>) -> Result<(), AllocError> {
        self.pictures.push(Picture { name, cells })?;
        Ok(())
    }

    // The pictures, in the order in which they were put.
    pub fn pictures(&self) -> &[Picture] {
        self.pictures.as_slice()
    }

    // The picture of that name.
    pub fn named(&self, name: Standing) -> Option<&Picture> {
        self.pictures.iter().find(|p| p.name == name)
    }

    // The name that the first picture of these cells has.
    pub fn first_like(&self, cells: &[Gray]) -> Option<Standing> {
        self.pictures
            .iter()
            .find(|p| p.cells.as_slice() == cells)
            .map(|p| p.name)
    }

    // How many different sheets there are.
    pub fn different(&self) -> usize {
        self.pictures
            .iter()
            .filter(|p| self.first_like(p.cells.as_slice()) == Some(p.name))
            .count()
    }
}
