use clap::{Arg, ArgAction, Command};
use std::alloc::{AllocError, Global};

/// `list`.
fn list_command<'a>(alloc: Global) -> Command<'a> {
    Command::new(alloc, "list").about("Write the terms of the sheet on standard input, by weight")
}

/// `upgrade`.
fn upgrade_command<'a>(alloc: Global) -> Command<'a> {
    Command::new(alloc, "upgrade").about(
        "Write the sheet on standard input anew, in the newest form and with each of its lines",
    )
}

/// `count --start FILE`.
fn count_command<'a>(alloc: Global) -> Result<Command<'a>, AllocError> {
    let start = Arg::new(alloc, "start")
        .long("start")
        .value_name("FILE")
        .required(true)
        .help("Count in the class files whose paths this file names, one a line");
    Command::new(alloc, "count")
        .about("Write how often class files use each field, method and constructor")
        .arg(start)
}

/// `sample N`.
fn sample_command<'a>(alloc: Global) -> Result<Command<'a>, AllocError> {
    let number = Arg::new(alloc, "N").required(true).help(
        "Make the classes of this number, which is at most 1000000",
    );
    Command::new(alloc, "sample")
        .about("Write what is found among 200 made classes, in six lines")
        .arg(number)
}

/// `serve [--start FILE] [--ahead N] [IN=OUT ..]`.
fn serve_command<'a>(alloc: Global) -> Result<Command<'a>, AllocError> {
    let start = Arg::new(alloc, "start")
        .long("start")
        .value_name("FILE")
        .help("Start with the class files whose paths this file names, one a line");
    let ahead = Arg::new(alloc, "ahead").long("ahead").value_name("N").help(
        "Let 1 to 8 workers find the next page of a list while a client reads one",
    );
    let pairs = Arg::new(alloc, "IN=OUT").action(ArgAction::Append).help(
        "Serve a further client, which writes IN and reads OUT; at most 63",
    );
    Command::new(alloc, "serve")
        .about("Serve a client on standard input and output")
        .arg(start)?
        .arg(ahead)?
        .arg(pairs)
}

/// A command by itself, with the program's name before its own and without an option that it hasn't.
fn alone<'a>(command: Command<'a>, name: &str) -> Result<Command<'a>, AllocError> {
    command.disable_help_flag(true).bin_name(name)
}

/// The program with its commands.
fn program<'a>(alloc: Global) -> Result<Command<'a>, AllocError> {
    Command::new(alloc, "insynthd")
        .disable_help_flag(true)
        .disable_help_subcommand(true)
        .subcommand_required(true)
        .subcommand(list_command(alloc))?
        .subcommand(upgrade_command(alloc))?
        .subcommand(count_command(alloc)?)?
        .subcommand(sample_command(alloc)?)?
        .subcommand(serve_command(alloc)?)
}

/// How the program is called: each command and what it does, and then the words of each that has some. It ends with a
/// line feed.
pub fn usage_text(alloc: Global) -> Result<String, AllocError> {
    let mut text = program(alloc)?.render_help()?;
    let count = alone(count_command(alloc)?, "insynthd count")?.render_help()?;
    let sample = alone(sample_command(alloc)?, "insynthd sample")?.render_help()?;
    let serve = alone(serve_command(alloc)?, "insynthd serve")?.render_help()?;
    for command in [&count, &sample, &serve] {
        text.push_str("\n")?;
        text.push_str(command.as_str())?;
    }
    Ok(text)
}
