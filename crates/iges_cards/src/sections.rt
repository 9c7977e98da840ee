ghost use Rattle.std.specs.Prelude.{◌≡◌, ◌≤◌, ◌<◌, ◌+◌};
ghost use Rattle.iges_cards.specs.Sections.{section_of, letter_of, may_follow, is_terminate};
ghost use Rattle.iges_cards.specs.Sections.{width_of, count_of, one_more, lines_in, no_lines};
ghost use Rattle.iges_cards.specs.Sections.{AreFew};

/// A section of a file.
#[derive(Clone, Copy, Debug)]
pub enum Section {
    Start,
    Global,
    Directory,
    Parameter,
    Terminate,
}

impl Section {
    /// The section that a letter in column 73 names.
    pub fn of_letter(letter: u8) -> Option<Section>
        ensures { result ≡ section_of letter }
    {
        match letter {
            b'S' => Some(Section::Start),
            b'G' => Some(Section::Global),
            b'D' => Some(Section::Directory),
            b'P' => Some(Section::Parameter),
            b'T' => Some(Section::Terminate),
            _ => None,
        }
    }

    /// The letter of the section.
    pub fn letter(self) -> u8
        ensures { result ≡ letter_of self }
    {
        match self {
            Section::Start => b'S',
            Section::Global => b'G',
            Section::Directory => b'D',
            Section::Parameter => b'P',
            Section::Terminate => b'T',
        }
    }

    /// Whether it is the section of the terminate line.
    pub fn is_terminate(self) -> bool
        ensures { result ≡ is_terminate self }
    {
        matches!(self, Section::Terminate)
    }

    /// How many columns are kept of a line of the section.
    pub fn width(self) -> usize
        ensures value { result ≡ width_of self }
        ensures within { result ≤ 80 }
    {
        match self {
            Section::Start | Section::Global | Section::Terminate => 72,
            Section::Directory => 80,
            Section::Parameter => 64,
        }
    }

    /// Whether a line of this section may stand after a line of another, or in front.
    pub fn follows(self, before: Option<Section>) -> bool
        ensures { result ≡ may_follow before self }
    {
        match before {
            None => matches!(self, Section::Start),
            Some(Section::Start) => matches!(self, Section::Start | Section::Global),
            Some(Section::Global) => matches!(
                self,
                Section::Global | Section::Directory | Section::Terminate
            ),
            Some(Section::Directory) => matches!(
                self,
                Section::Directory | Section::Parameter | Section::Terminate
            ),
            Some(Section::Parameter) => matches!(self, Section::Parameter | Section::Terminate),
            Some(Section::Terminate) => false,
        }
    }
}

/// How many lines of each section there are.
#[derive(Clone, Copy, Debug)]
pub struct Counts {
    pub start: u32,
    pub global: u32,
    pub directory: u32,
    pub parameter: u32,
}

impl Counts {
    /// No lines.
    pub fn new() -> Counts
        ensures { result ≡ no_lines }
    {
        Counts {
            start: 0,
            global: 0,
            directory: 0,
            parameter: 0,
        }
    }

    /// How many lines of a section there are.
    pub fn of(self, section: Section) -> u32
        ensures { result ≡ count_of self section }
    {
        match section {
            Section::Start => self.start,
            Section::Global => self.global,
            Section::Directory => self.directory,
            Section::Parameter => self.parameter,
            Section::Terminate => 0,
        }
    }

    /// How many lines there are.
    pub fn lines(self) -> u32
        requires { AreFew self }
        ensures { result ≡ lines_in self }
    {
        self.start + self.global + self.directory + self.parameter
    }

    /// With one line more of a section.
    pub fn one_more(self, section: Section) -> Counts
        requires { count_of self section < 9999999 }
        ensures { result ≡ one_more section self }
    {
        let mut counts = self;
        match section {
            Section::Start => counts.start += 1,
            Section::Global => counts.global += 1,
            Section::Directory => counts.directory += 1,
            Section::Parameter => counts.parameter += 1,
            Section::Terminate => {}
        }
        counts
    }
}
