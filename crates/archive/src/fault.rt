// What can be wrong with the bytes of a state or of an archive, in three layers.
ghost use Rattle.std.specs.Prelude.{◌≡◌, Some};
ghost use Rattle.archive.specs.declared.fault.StateFault.TheVariants.{Bits};
ghost use Rattle.archive.specs.declared.fault.ArchiveFault.TheVariants.{State, Short};
ghost use Rattle.archive.specs.declared.fault.Report.{Report};
ghost use Rattle.archive.specs.Faults.{layer_number, field_number, rule_number, numbered};
ghost use Rattle.archive.specs.Faults.{bits_report, state_report, archive_report, fault_text};

use std::fmt;

// The layers.
#[derive(Clone, Copy)]
enum Layer {
    Bits = 1,
    State = 2,
    Archive = 3,
}

// The faults of extent, which break no rule of a state: the bytes end inside a field, a count over 100, bytes left over.
#[derive(Clone, Copy)]
enum Extent {
    CutShort = 1,
    Overfull = 7,
    LeftOver = 8,
}

// A field of the bytes. `Rest` is what stands after the last.
#[derive(Clone, Copy, Debug, PartialEq, Eq)]
pub enum Field {
    Count = 0,
    Qubits = 1,
    Dimension = 2,
    Weight = 3,
    Phase = 4,
    Row = 5,
    Shift = 6,
    Linear = 7,
    Coupling = 8,
    Fill = 9,
    Rest = 10,
}

impl Field {
    pub fn number(self) -> u64
        ensures { result ≡ field_number self }
    {
        self as u64
    }
}

// A rule that the fields of a state keep.
#[derive(Clone, Copy, Debug, PartialEq, Eq)]
pub enum Rule {
    QubitRange = 2,
    DimensionRange = 3,
    WeightRange = 4,
    EchelonForm = 5,
    ZeroFill = 6,
    NothingLeft = 8,
}

impl Rule {
    pub fn number(self) -> u64
        ensures { result ≡ rule_number self }
    {
        self as u64
    }
}

// The first layer: the bytes end inside the field that begins at the place.
#[derive(Clone, Copy, Debug, PartialEq, Eq)]
pub struct BitsFault {
    pub field: Field,
    pub place: usize,
}

// The second layer: the bits of a field are missing, or the field that begins at the place breaks a rule.
#[derive(Clone, Copy, Debug, PartialEq, Eq)]
pub enum StateFault {
    Bits(BitsFault),
    Broken {
        rule: Rule,
        field: Field,
        place: usize,
    },
}

impl From<BitsFault> for StateFault {
    ghost from_gives = { λ f r. r ≡ Bits f };

    fn from(bits: BitsFault) -> StateFault {
        StateFault::Bits(bits)
    }
}

// The third layer: the fault of a state, with the state's number from 1 (0 for a state alone), the count byte
// missing, a count over 100, or bytes left over from the place on.
#[derive(Clone, Copy, Debug, PartialEq, Eq)]
pub enum ArchiveFault {
    State { sheet: u64, fault: StateFault },
    Short(BitsFault),
    Overfull,
    LeftOver { place: usize },
}

impl From<StateFault> for ArchiveFault {
    ghost from_gives = { λ f r. r ≡ State 0 f };

    fn from(fault: StateFault) -> ArchiveFault {
        ArchiveFault::State { sheet: 0, fault }
    }
}

impl From<BitsFault> for ArchiveFault {
    ghost from_gives = { λ f r. r ≡ Short f };

    fn from(bits: BitsFault) -> ArchiveFault {
        ArchiveFault::Short(bits)
    }
}

impl ArchiveFault {
    // The same fault, as that of the state with the number.
    pub fn numbered(self, sheet: u64) -> ArchiveFault
        ensures { result ≡ numbered sheet self }
    {
        match self {
            ArchiveFault::State { fault, .. } => ArchiveFault::State { sheet, fault },
            other => other,
        }
    }
}

// What a fault reports: the layer, the number of the fault, that of the state (0 for none), that of the field, and the place.
#[derive(Clone, Copy, Debug, PartialEq, Eq)]
pub struct Report {
    pub layer: u64,
    pub number: u64,
    pub sheet: u64,
    pub field: u64,
    pub place: usize,
}

impl Report {
    // A report that names no state of an archive.
    fn new(layer: Layer, number: u64, field: Field, place: usize) -> Report
        ensures { result ≡ record { layer = layer_number layer; number = number; sheet = 0; field = field_number field; place = place } }
    {
        Report {
            layer: layer as u64,
            number,
            sheet: 0,
            field: field.number(),
            place,
        }
    }
}

// A fault of any layer.
pub trait Fault: Copy {
    ghost reported: { Self → Report };

    // What the fault reports.
    fn report(self) -> Report
        ensures { result ≡ reported self };

    final fn layer(self) -> u64
        ensures { result ≡ (reported self).layer }
    {
        self.report().layer
    }

    final fn number(self) -> u64
        ensures { result ≡ (reported self).number }
    {
        self.report().number
    }

    final fn sheet(self) -> u64
        ensures { result ≡ (reported self).sheet }
    {
        self.report().sheet
    }

    final fn field(self) -> u64
        ensures { result ≡ (reported self).field }
    {
        self.report().field
    }

    final fn place(self) -> usize
        ensures { result ≡ (reported self).place }
    {
        self.report().place
    }
}

impl Fault for BitsFault {
    ghost reported = { bits_report };

    fn report(self) -> Report {
        Report::new(Layer::Bits, Extent::CutShort as u64, self.field, self.place)
    }
}

impl Fault for StateFault {
    ghost reported = { state_report };

    fn report(self) -> Report {
        match self {
            StateFault::Bits(fault) => fault.report(),
            StateFault::Broken { rule, field, place } => {
                Report::new(Layer::State, rule.number(), field, place)
            }
        }
    }
}

impl Fault for ArchiveFault {
    ghost reported = { archive_report };

    fn report(self) -> Report {
        match self {
            ArchiveFault::State { sheet, fault } => Report {
                sheet,
                ..fault.report()
            },
            ArchiveFault::Short(fault) => fault.report(),
            ArchiveFault::Overfull => {
                Report::new(Layer::Archive, Extent::Overfull as u64, Field::Count, 0)
            }
            ArchiveFault::LeftOver { place } => Report::new(
                Layer::Archive,
                Extent::LeftOver as u64,
                Field::Rest,
                place,
            ),
        }
    }
}

impl fmt::Display for Report {
    ghost output = { λ r. Some (fault_text r) };

    fn fmt<W: fmt::Write>(&self, f: &mut fmt::Formatter<W>) -> fmt::Result {
        let Report {
            layer,
            number,
            sheet,
            field,
            place,
        } = *self;
        write!(f, "fault {layer} {number} {sheet} {field} {place}")
    }
}
