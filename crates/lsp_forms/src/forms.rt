use decl_index::Weights;
use lists::{Items, Text};

/// Why parameters are refused: the cause, and the number in its list that it speaks of, 0 where no list
/// is meant. The causes are 1 (missing or of the wrong kind), 2 (no whole number, or out of its range),
/// 7 (an unknown command), 8 (no URI of a file of this host with a path in UTF-8), 12 (no internal name among those
/// to remove), 13 (no key of a member) and 22 (no internal name among those that are known). Files to put and source
/// files are numbered together, the files to put first.
#[derive(Clone, Copy, Debug, PartialEq, Eq)]
pub struct ParamFault {
    pub cause: u32,
    pub index: u32,
}

/// The options of `initialize`, with defaults for what is left out.
#[derive(Clone, Copy, Debug, PartialEq, Eq)]
pub struct Initialize {
    /// The greatest weight of a term, 1 to 10,000; 4,000 by default.
    pub limit: u32,
    /// How deep lambdas nest, 0 or 1; 1 by default.
    pub depth: u32,
    /// How many items a page has, 1 to 1,000; 20 by default.
    pub count: u64,
}

/// The parameters of `textDocument/didOpen`.
#[derive(Debug, Drop)]
pub struct DidOpen {
    pub uri: Text,
    pub text: Text,
}

/// One change of `textDocument/didChange`.
#[derive(Debug, Drop)]
pub struct ChangeForm {
    /// The start and the end, each a line and a UTF-16 unit, both from 0; None for the whole text.
    pub range: Option<((u32, u32), (u32, u32))>,
    pub text: Text,
}

/// The parameters of `textDocument/didChange`. `changes` is None where they aren't well formed.
#[derive(Debug, Drop)]
pub struct DidChange {
    pub uri: Text,
    pub changes: Option<Items<ChangeForm>>,
}

/// The parameters of `textDocument/didClose`.
#[derive(Debug, Drop)]
pub struct DidClose {
    pub uri: Text,
}

/// The parameters of `textDocument/completion`.
#[derive(Debug, Drop)]
pub struct Completion {
    pub uri: Text,
    pub line: u32,
    pub character: u32,
}

/// The parameters of `workspace/executeCommand`.
#[derive(Debug, Drop)]
pub enum Command {
    /// `insynth.page`: the next `count` items of a cursor, 1 to 1,000.
    Page {
        cursor: u32,
        count: u64,
    },
    /// `insynth.close`: the cursor isn't kept any more.
    Close {
        cursor: u32,
    },
    /// `insynth.explain`: why the item of this number, among those that a cursor has answered, weighs what it does; where
    /// none is named, why none weighs less than the first.
    Explain {
        cursor: u32,
        item: Option<u32>,
    },
    /// `insynth.publish`: the decoded paths of class files to put, internal names of classes to remove, how often
    /// members are used, each by its key, the decoded paths of source files whose classes are put after those of
    /// the class files, and internal names of classes that the names in them may mean.
    Publish {
        puts: Items<Text>,
        removes: Items<Text>,
        counts: Items<(Text, u32)>,
        sources: Items<Text>,
        known: Items<Text>,
    },
    /// `insynth.weights`: from here on these are the weights.
    SetWeights(Weights),
    /// `insynth.withdraw`: the versions up to this one are withdrawn; lists of them get no further page.
    Withdraw {
        through: u32,
    },
}

/// An item of a list of completions.
#[derive(Debug, Drop)]
pub struct ItemForm {
    pub weight: u32,
    pub text: Text,
}
