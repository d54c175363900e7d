ghost use Rattle.std.specs.Prelude.{◌≡◌, ◌≢◌, ◌≤◌, ◌+◌, ◌<◌, ◌^◌, IsTrue, IsNone, IfSome, MatchOption, drop, length};
ghost use Rattle.json_rpc.specs.Prefixes.{Leads};
ghost use Rattle.json_rpc.specs.Heads.{start, step, next, digit, line_after, scan_from, is_name, is_value, is_blank, is_digit, matching, IsWithin, at_line, at_name, at_value, at_blank, at_digits, at_tail};

/// What may stand next.
#[derive(Clone, Copy, Debug)]
pub enum Mode {
    Line,
    Name,
    Value,
    Blank,
    Digits,
    Tail,
    LineEnd,
    LastEnd,
}

/// What is known of a header part so far.
#[derive(Clone, Copy, Debug)]
pub struct Head {
    pub mode: Mode,
    /// How many bytes of `content-length` this line's name has been, 15 where it is another name.
    pub matched: usize,
    pub told: bool,
    pub digits: u64,
    pub length: u64,
}

/// What a byte does.
#[derive(Clone, Copy, Debug)]
pub enum Step {
    On(Head),
    Done,
    Stop,
    Twice,
}

/// What a header part is: its bytes and its length where it is whole.
#[derive(Clone, Copy, Debug)]
pub enum Reading {
    More,
    Whole(usize, Head),
    Bad(usize),
}

impl Head {
    /// A header of which nothing is read.
    pub fn start() -> Head
        ensures { result ≡ start }
    {
        Head {
            mode: Mode::Line,
            matched: 0,
            told: false,
            digits: 0,
            length: 0,
        }
    }

    /// One byte more.
    #[tactic(auto, unfolding(crate::specs::Heads::step))]
    pub fn step(&self, b: u8) -> Step
        ensures { result ≡ step self.now b }
    {
        match self.mode {
            Mode::Line => self.at_line(b),
            Mode::Name => self.at_name(b),
            Mode::Value => self.at_value(b),
            Mode::Blank => self.at_blank(b),
            Mode::Digits => self.at_digits(b),
            Mode::Tail => self.at_tail(b),
            Mode::LineEnd => {
                if b == b'\n' {
                    Step::On(Head {
                        matched: 0,
                        ..self.next(Mode::Line)
                    })
                } else {
                    Step::Stop
                }
            }
            Mode::LastEnd => { if b == b'\n' { Step::Done } else { Step::Stop } }
        }
    }

    fn next(&self, mode: Mode) -> Head
        ensures { result ≡ next self.now mode }
    {
        Head { mode, ..*self }
    }

    fn digit(&self, digits: u64, b: u8) -> Step
        requires { IsTrue (is_digit b) }
        ensures { result ≡ digit self.now digits b }
    {
        let length = self
            .length
            .saturating_mul(10)
            .saturating_add((b - b'0') as u64);
        Step::On(Head {
            digits,
            length,
            ..self.next(Mode::Digits)
        })
    }

    #[tactic(auto, unfolding(crate::specs::Heads::at_line))]
    fn at_line(&self, b: u8) -> Step
        ensures { result ≡ at_line self.now b }
    {
        if b == b'\r' {
            return Step::On(self.next(Mode::LastEnd));
        }
        if is_name(b) {
            return Step::On(Head {
                matched: matching(0, b),
                ..self.next(Mode::Name)
            });
        }
        Step::Stop
    }

    #[tactic(auto, unfolding(crate::specs::Heads::at_name))]
    fn at_name(&self, b: u8) -> Step
        ensures { result ≡ at_name self.now b }
    {
        if b == b':' {
            if self.matched != 14 {
                return Step::On(self.next(Mode::Value));
            }
            if self.told {
                return Step::Twice;
            }
            return Step::On(Head {
                told: true,
                ..self.next(Mode::Blank)
            });
        }
        if is_name(b) {
            return Step::On(Head {
                matched: matching(self.matched, b),
                ..self.next(Mode::Name)
            });
        }
        Step::Stop
    }

    #[tactic(auto, unfolding(crate::specs::Heads::at_value))]
    fn at_value(&self, b: u8) -> Step
        ensures { result ≡ at_value self.now b }
    {
        if b == b'\r' {
            return Step::On(self.next(Mode::LineEnd));
        }
        if is_value(b) {
            return Step::On(self.next(Mode::Value));
        }
        Step::Stop
    }

    #[tactic(auto, unfolding(crate::specs::Heads::at_blank))]
    fn at_blank(&self, b: u8) -> Step
        ensures { result ≡ at_blank self.now b }
    {
        if is_blank(b) {
            return Step::On(self.next(Mode::Blank));
        }
        if is_digit(b) {
            return self.digit(1, b);
        }
        Step::Stop
    }

    #[tactic(auto, unfolding(crate::specs::Heads::at_digits))]
    fn at_digits(&self, b: u8) -> Step
        ensures { result ≡ at_digits self.now b }
    {
        if is_digit(b) {
            if self.digits < 18 {
                return self.digit(self.digits + 1, b);
            }
            return Step::Stop;
        }
        if b == b' ' {
            return Step::On(self.next(Mode::Tail));
        }
        if b == b'\r' {
            return Step::On(self.next(Mode::LineEnd));
        }
        Step::Stop
    }

    #[tactic(auto, unfolding(crate::specs::Heads::at_tail))]
    fn at_tail(&self, b: u8) -> Step
        ensures { result ≡ at_tail self.now b }
    {
        if b == b' ' {
            return Step::On(self.next(Mode::Tail));
        }
        if b == b'\r' {
            return Step::On(self.next(Mode::LineEnd));
        }
        Step::Stop
    }
}

fn is_name(b: u8) -> bool
    ensures { result ≡ is_name b }
{
    b >= 33 && b <= 126 && b != b':'
}

fn is_value(b: u8) -> bool
    ensures { result ≡ is_value b }
{
    b >= 32 && b <= 126 || b == b'\t'
}

fn is_blank(b: u8) -> bool
    ensures { result ≡ is_blank b }
{
    b == b' ' || b == b'\t'
}

fn is_digit(b: u8) -> bool
    ensures { result ≡ is_digit b }
{
    b >= b'0' && b <= b'9'
}

fn matching(matched: usize, b: u8) -> usize
    ensures { result ≡ matching matched b }
{
    let name = b"content-length";
    if matched < name.len() && name[matched] == b.to_ascii_lowercase() {
        return matched + 1;
    }
    15
}

fn line_after(n: usize, line: usize, mode: Mode) -> usize
    requires { n < 2 ^ 63 }
    ensures value { result ≡ line_after n line mode }
    ensures within { line ≤ n → result ≤ n + 1 }
{
    match mode {
        Mode::Line => n + 1,
        _ => line,
    }
}

/// How far a header part has been read: so many bytes, of which the last line begins at `line`.
#[derive(Clone, Copy, Debug)]
pub struct Scan {
    pub read: usize,
    pub line: usize,
    pub head: Head,
}

/// What is known of the prefix of the bytes that are held: a header part so far, or a whole one of so many
/// bytes, which the body follows.
#[derive(Clone, Copy, Debug)]
pub enum Prefix {
    Part(Scan),
    Body(usize, Head),
}

impl Scan {
    /// A frame of which nothing is read.
    pub fn start() -> Scan
        ensures { result ≡ record { read = 0; line = 0; head = start } }
    {
        Scan {
            read: 0,
            line: 0,
            head: Head::start(),
        }
    }

    /// Reads on to the end of the header part, or of the bytes.
    #[tactic(auto, using(crate::proofs::Scans::prefixes))]
    pub fn read_on(&mut self, bytes: &[u8]) -> Reading
        requires read { self.old.read ≤ length bytes.now }
        requires line { self.old.line ≤ self.old.read }
        ensures value { result ≡ scan_from self.old.read self.old.line self.old.head (drop self.old.read bytes.now) }
        ensures within { IsWithin (length bytes.now) result }
        ensures on { result ≡ Reading.More → Leads bytes.now self.old self.new }
        ensures all { result ≡ Reading.More → self.new.read ≡ length bytes.now }
        ensures line { self.new.line ≤ self.new.read }
    {
        while self.read < bytes.len() {
            if let Some(reading) = self.read_byte(bytes) {
                return reading;
            }
        }
        Reading::More
    }

    /// Reads one byte; None where the header part may go on.
    #[tactic(auto, using(crate::proofs::Scans::scans))]
    fn read_byte(&mut self, bytes: &[u8]) -> Option<Reading>
        requires read { self.old.read < length bytes.now }
        requires line { self.old.line ≤ self.old.read }
        ensures on { MatchOption result (Leads bytes.now self.old self.new) (λ reading. reading ≡ scan_from self.old.read self.old.line self.old.head (drop self.old.read bytes.now)) }
        ensures one { IsNone result → self.new.read ≡ self.old.read + 1 }
        ensures within { IfSome result (λ reading. (reading ≢ Reading.More) × IsWithin (length bytes.now) reading) }
        ensures line { self.new.line ≤ self.new.read }
    {
        let n = self.read;
        if n >= 8192 {
            return Some(Reading::Bad(n));
        }
        match self.head.step(bytes[n]) {
            Step::On(next) => {
                self.line = line_after(n, self.line, next.mode);
                self.head = next;
                self.read = n + 1;
                None
            }
            Step::Done => Some(Reading::Whole(n + 1, self.head)),
            Step::Stop => Some(Reading::Bad(n)),
            Step::Twice => Some(Reading::Bad(self.line)),
        }
    }
}
