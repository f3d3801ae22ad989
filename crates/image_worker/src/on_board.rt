//! A stock of images, as what lies on the desk of a board.
ghost use Rattle.image_worker.specs.Words.{image_words};

use crate::inputs::{ImageInputs, ImageSubject, MadeImages};
use crate::stock::ImageStock;
use bidegree::Shape;
use board_core::Cause;
use memory::Memory;
use square_board::Stock;
use std::alloc::Global;

impl Stock for ImageStock {
    type Subject = ImageSubject;

    type Inputs = ImageInputs;

    type Made = MadeImages;

    ghost words = { image_words };

    fn bottom(&self) -> i32 {
        self.least_degree()
    }

    fn shape(&self) -> Shape {
        self.shape_of_range()
    }

    fn rows(&self) -> u16 {
        self.row_count()
    }

    fn front(&self, s: u16) -> u64 {
        let _bottom = self.least_degree();
        self.done(s)
    }

    fn generators(&self, s: u16, above: u16) -> Option<usize> {
        self.count(s, above)
    }

    fn inputs(&self, alloc: Global, s: u16, above: u16) -> Result<ImageInputs, Memory> {
        let _rows = self.row_count();
        self.inputs_at(alloc, s, above)
    }

    fn make(alloc: Global, inputs: &ImageInputs) -> Result<MadeImages, Memory> {
        inputs.made(alloc)
    }

    fn put(
        &mut self,
        _alloc: Global,
        s: u16,
        above: u16,
        _inputs: &ImageInputs,
        made: MadeImages,
    ) -> Result<(), Cause> {
        let _rows = self.row_count();
        match self.put_at(s, above, made) {
            Ok(()) => Ok(()),
            Err(_) => Err(Cause::Memory),
        }
    }

    fn reach(inputs: &ImageInputs) -> u16 {
        inputs.reach()
    }

    fn has_generators(inputs: &ImageInputs, a: u16) -> bool {
        inputs.has_generators(a)
    }

    fn make_products(
        alloc: Global,
        inputs: &ImageInputs,
        a: u16,
        above: u16,
    ) -> Result<(), Memory> {
        inputs.make_products(alloc, a, above)
    }
}
