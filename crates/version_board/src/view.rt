use crate::log::Naming;
use crate::shown::Shown;
use crossbeam_utils::rule::{Outcome, Protocol};
use decl_index::Change;
use left_right::reader::{Factory, Reader};
use left_right::writer::Writer;
use std::collections::LinkedList;
use std::marker::PhantomData;

/// What a pass has seen of its board. Contracts see a pass as it; no value of it is made.
pub struct View {
    /// The longest history that was read or learnt of.
    pub seen: LinkedList<Change>,
    /// The lengths of the histories that were read, the first read first.
    pub reads: LinkedList<u64>,
}

/// The board's rule: what each pass has seen is a prefix of the journal that is shown.
pub struct Shows<J> {
    of: PhantomData<J>,
}

impl<J: Naming> Protocol<Shown<J>, View> for Shows<J> {
    ghost use Rattle.version_board.specs.Views.{AllBegin, newcomer};

    ghost holds = { AllBegin J.first };

    ghost first = { newcomer J.first };
}

/// The step of a pass that reads.
pub struct Reads;

impl<J: Naming> Outcome<Shown<J>, View> for Reads {
    ghost use Rattle.version_board.specs.Views.{HasRead};

    ghost then = { HasRead };
}

/// The step of a pass that looks, which is no read.
pub struct Looks;

impl<J: Naming> Outcome<Shown<J>, View> for Looks {
    ghost use Rattle.version_board.specs.Views.{HasLooked};

    ghost then = { HasLooked };
}

/// The step of the publisher that shows a version.
pub struct Publishes;

impl<J: Naming> Outcome<Shown<J>, View> for Publishes {
    ghost use Rattle.version_board.specs.Views.{HasPublished};

    ghost then = { HasPublished };
}

pub type BoardReader<J> = Reader<Shown<J>, View, Shows<J>>;

pub type BoardWriter<J> = Writer<Shown<J>, Shown<J>, View, Shows<J>>;

pub type BoardFactory<J> = Factory<Shown<J>, View, Shows<J>>;
