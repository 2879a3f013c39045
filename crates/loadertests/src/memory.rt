// What a loader lends to a search.

use boundary::answering::DepthAnswer;
use boundary::faults::LoadFault;
use loader::request::Request;
use loader::searching::{Found, search_learning, search_plain};
use models::writing::MOST_BYTES;
use std::alloc::{AllocError, Global};

// No answer of a search.
pub const BLANK: DepthAnswer = DepthAnswer {
    outcome: 0,
    goal: 0,
    rounds: 0,
    opened: 0,
    recorded: 0,
};

#[derive(Drop)]
pub struct Memory {
    pub way: Vec<u8>,
    pub literals: Vec<u16>,
    pub answers: Vec<DepthAnswer>,
    pub model: Vec<u8>,
}

impl Memory {
    pub fn new(heap: Global) -> Result<Memory, AllocError> {
        Ok(Memory {
            way: vec![in heap; 0u8; 4_096]?,
            literals: vec![in heap; 0u16; 4_096]?,
            answers: vec![in heap; BLANK; 8]?,
            model: vec![in heap; 0u8; MOST_BYTES]?,
        })
    }

    pub fn plain(
        &mut self,
        heap: Global,
        bytes: &[u8],
        request: &Request,
    ) -> Result<Found, LoadFault> {
        search_plain(
            heap,
            bytes,
            request,
            &mut self.way,
            &mut self.literals,
            &mut self.answers,
            &mut self.model,
        )
    }

    pub fn learning(
        &mut self,
        heap: Global,
        bytes: &[u8],
        request: &Request,
    ) -> Result<Found, LoadFault> {
        search_learning(
            heap,
            bytes,
            request,
            &mut self.way,
            &mut self.literals,
            &mut self.answers,
            &mut self.model,
        )
    }
}
