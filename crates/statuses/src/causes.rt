/// What is wrong with a line of a sheet, or with the sheet as a whole.
pub(crate) fn sheet_cause(cause: u32) -> &'static str {
    match cause {
        1 => "the bytes aren't UTF-8",
        2 => "the first line isn't `insynth sheet 1` or `insynth sheet 2`",
        3 => "the line is none of a sheet's",
        4 => "a number isn't one to nine digits",
        5 => "a type isn't declared before",
        6 => "the type is declared twice",
        7 => "this stands there twice",
        8 => "there is no goal",
        9 => "there are more than 16,777,216 bytes",
        _ => environment_cause(cause),
    }
}

/// What is wrong with the environment that a sheet makes.
fn environment_cause(cause: u32) -> &'static str {
    match cause {
        11 => "there is no type of this number",
        12 => "a type is no subtype of itself",
        13 => "the pair of types stands there twice",
        14 => "the weight isn't 5 to 10,000",
        15 => "the limit isn't 1 to 10,000",
        16 => "the pairs of types aren't transitive",
        17 => "the depth is too great",
        18 => "the arguments don't suit the form",
        19 => "a weight of variables, binders or coercions is out of its range",
        _ => "the environment has a fault",
    }
}

/// What is wrong at a place of the messages.
pub(crate) fn frame_cause(cause: u32) -> &'static str {
    match cause {
        1 => "a header line is broken",
        2 => "a header has no Content-Length",
        4 => "the input ends within a message",
        _ => "the frame has a fault",
    }
}

/// What is wrong with a line of a start text, or with the text as a whole.
pub(crate) fn start_cause(cause: u32) -> &'static str {
    match cause {
        9 => "there is no such file",
        10 => "the file has more than 16,777,216 bytes",
        11 => "the file is no class file",
        14 => "a class would be above itself",
        15 => "the classes have too many parts",
        18 => "a class would stand within itself",
        19 => "it isn't UTF-8 of at most 16,777,216 bytes",
        20 => "the code of the class is broken",
        _ => "it has a fault",
    }
}
