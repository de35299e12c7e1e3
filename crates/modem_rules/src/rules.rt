use crate::{RequestKind, RuleData};

/// Each request of a kind is answered by a success with these TLVs or this buffer.
#[derive(Drop)]
pub struct AnswerRule {
    pub kind: RequestKind,
    pub data: RuleData,
}

/// How a request fails.
#[derive(Clone, Copy, PartialEq, Eq)]
pub enum Failure {
    /// It is refused by this error of QMI or this status of MBIM.
    Refused(u32),
    /// It isn't answered.
    Silent,
    /// The connection on which it came is ended.
    HungUp,
    /// It is answered, but only after so many ticks of the clock.
    Late(u32),
}

/// One request of a kind fails.
#[derive(Clone, Copy, PartialEq, Eq)]
pub struct FaultRule {
    pub kind: RequestKind,
    /// Which of the requests of the kind it is, counted from 1.
    pub nth: u64,
    pub failure: Failure,
}

/// When an indication is sent.
#[derive(Clone, Copy, PartialEq, Eq)]
pub enum When {
    /// Behind each request of this kind.
    After(RequestKind),
    /// Each so many ticks of the clock.
    Each(u32),
}

/// An indication is sent, again and again.
#[derive(Drop)]
pub struct IndicationRule {
    pub when: When,
    /// What it is an indication of.
    pub kind: RequestKind,
    /// Its TLVs or its buffer.
    pub data: RuleData,
}

/// What a simulated modem does otherwise than by itself.
#[derive(Drop)]
pub struct Rules {
    pub answers: Vec<AnswerRule>,
    pub faults: Vec<FaultRule>,
    pub indications: Vec<IndicationRule>,
}
