use crate::usage_text;
use std::test::*;

const USAGE: &str = "Usage: insynthd <COMMAND>

Commands:
  list     Write the terms of the sheet on standard input, by weight
  upgrade  Write the sheet on standard input anew, in the newest form and with each of its lines
  count    Write how often class files use each field, method and constructor
  sample   Write what is found among 200 made classes, in six lines
  serve    Serve a client on standard input and output

Write how often class files use each field, method and constructor

Usage: insynthd count --start <FILE>

Options:
      --start <FILE>  Count in the class files whose paths this file names, one a line

Write what is found among 200 made classes, in six lines

Usage: insynthd sample <N>

Arguments:
  <N>  Make the classes of this number, which is at most 1000000

Serve a client on standard input and output

Usage: insynthd serve [OPTIONS] [IN=OUT]...

Arguments:
  [IN=OUT]...  Serve a further client, which writes IN and reads OUT; at most 63

Options:
      --start <FILE>  Start with the class files whose paths this file names, one a line
      --ahead <N>     Let 1 to 8 workers find the next page of a list while a client reads one
";

#[test]
fn the_usage_names_each_command_and_its_words(rt: HostRuntime) -> Result<(), Fail> {
    let text = usage_text(rt.alloc())?;
    assert!(rt; text.as_str() == USAGE, "{text}");
    Ok(())
}
