// The kinds of request of services 14 and 15 (ECSS-E-ST-70-41C, 8.14.2 and 8.15.2).
ghost use Rattle.std.specs.Prelude.{◌≡◌, MatchOption, None, Some, true, false};
ghost use Rattle.pst_model.specs.Layouts.{kind_in};
ghost use Rattle.pus_request.specs.Kinds.{row_of};

use control_defs::{FORWARDING, Instruction, STORAGE};

/// A kind of request, by the instructions for which it asks.
#[derive(Clone, Copy, Debug, PartialEq, Eq)]
pub(crate) enum Kind {
    ForwardAdd,
    ForwardDelete,
    ForwardReport,
    Enable,
    Disable,
    AddTypes,
    DeleteTypes,
    ReportTypes,
    StartRange,
    DeleteUpTo,
    Summary,
    OpenFrom,
    Resume,
    Suspend,
    Abort,
    Status,
    Create,
    Remove,
    Configuration,
    Copy,
    Resize,
    ToCircular,
    ToBounded,
    Channel,
}

/// What the requests of a kind look like.
#[derive(Clone, Copy)]
pub(crate) struct Layout {
    /// The service type.
    pub service: u8,
    /// The message subtype.
    pub subtype: u8,
    /// Whether the data is a list, with the number of items in front, and not one item alone.
    pub is_list: bool,
    /// The octets of an item: at most 16.
    pub width: usize,
}

// Requests with a list of items of this width.
fn list(service: u8, subtype: u8, width: usize) -> Layout
    ensures { result ≡ record {
      service = service;
      subtype = subtype;
      is_list = true;
      width = width;
    } }
{
    Layout {
        service,
        subtype,
        is_list: true,
        width,
    }
}

// Requests with one item of this width alone.
fn alone(service: u8, subtype: u8, width: usize) -> Layout
    ensures { result ≡ record {
      service = service;
      subtype = subtype;
      is_list = false;
      width = width;
    } }
{
    Layout {
        service,
        subtype,
        is_list: false,
        width,
    }
}

/// The kind of requests of service 14 with this message subtype.
fn of_forwarding(subtype: u8) -> Option<Kind>
    ensures { MatchOption result (kind_in 14 subtype ≡ None)
        (λ kind. kind_in 14 subtype ≡ Some (row_of kind)) }
{
    match subtype {
        1 => Some(Kind::ForwardAdd),
        2 => Some(Kind::ForwardDelete),
        3 => Some(Kind::ForwardReport),
        _ => None,
    }
}

/// The kind of requests of service 15 with this message subtype.
fn of_storage(subtype: u8) -> Option<Kind>
    ensures { MatchOption result (kind_in 15 subtype ≡ None)
        (λ kind. kind_in 15 subtype ≡ Some (row_of kind)) }
{
    match subtype {
        1 => Some(Kind::Enable),
        2 => Some(Kind::Disable),
        3 => Some(Kind::AddTypes),
        4 => Some(Kind::DeleteTypes),
        5 => Some(Kind::ReportTypes),
        9 => Some(Kind::StartRange),
        11 => Some(Kind::DeleteUpTo),
        12 => Some(Kind::Summary),
        14 => Some(Kind::OpenFrom),
        15 => Some(Kind::Resume),
        16 => Some(Kind::Suspend),
        17 => Some(Kind::Abort),
        18 => Some(Kind::Status),
        20 => Some(Kind::Create),
        21 => Some(Kind::Remove),
        22 => Some(Kind::Configuration),
        24 => Some(Kind::Copy),
        25 => Some(Kind::Resize),
        26 => Some(Kind::ToCircular),
        27 => Some(Kind::ToBounded),
        28 => Some(Kind::Channel),
        _ => None,
    }
}

impl Kind {
    ghost use Rattle.std.specs.Prelude.{◌≡◌, ◌≤◌, MatchOption, None, Some, length};
    ghost use Rattle.pst_model.specs.Items.{kind_asked};
    ghost use Rattle.pst_model.specs.Layouts.{kind_in, width_of};
    ghost use Rattle.pst_model.specs.Requests.{count_in, front_of, place_of};
    ghost use Rattle.pus_request.specs.Kinds.{asked_by, row_of};

    /// The kind of requests with this service type and message subtype, where there is one.
    pub(crate) fn of(service: u8, subtype: u8) -> Option<Kind>
        ensures { MatchOption result (kind_in service subtype ≡ None)
            (λ kind. kind_in service subtype ≡ Some (row_of kind)) }
    {
        match service {
            FORWARDING => of_forwarding(subtype),
            STORAGE => of_storage(subtype),
            _ => None,
        }
    }

    /// The kind of requests for an instruction.
    pub(crate) fn for_item(item: Instruction) -> Kind
        ensures { kind_asked item ≡ asked_by result }
    {
        match item {
            Instruction::ForwardAdd(_) => Kind::ForwardAdd,
            Instruction::ForwardDelete(_) => Kind::ForwardDelete,
            Instruction::ForwardReport => Kind::ForwardReport,
            Instruction::Enable(_) => Kind::Enable,
            Instruction::Disable(_) => Kind::Disable,
            Instruction::AddTypes { .. } => Kind::AddTypes,
            Instruction::DeleteTypes { .. } => Kind::DeleteTypes,
            Instruction::ReportTypes(_) => Kind::ReportTypes,
            Instruction::StartRange { .. } => Kind::StartRange,
            Instruction::DeleteUpTo { .. } => Kind::DeleteUpTo,
            Instruction::Summary(_) => Kind::Summary,
            Instruction::OpenFrom { .. } => Kind::OpenFrom,
            Instruction::Resume(_) => Kind::Resume,
            Instruction::Suspend(_) => Kind::Suspend,
            Instruction::Abort(_) => Kind::Abort,
            Instruction::Status => Kind::Status,
            Instruction::Create { .. } => Kind::Create,
            Instruction::Remove(_) => Kind::Remove,
            Instruction::Configuration => Kind::Configuration,
            Instruction::Copy { .. } => Kind::Copy,
            Instruction::Resize { .. } => Kind::Resize,
            Instruction::ToCircular(_) => Kind::ToCircular,
            Instruction::ToBounded(_) => Kind::ToBounded,
            Instruction::Channel { .. } => Kind::Channel,
        }
    }

    /// What its requests look like.
    pub(crate) fn layout(self) -> Layout
        ensures service { result.service ≡ (asked_by self).0 }
        ensures subtype { result.subtype ≡ (asked_by self).1 }
        ensures list { result.is_list ≡ (row_of self).is_list }
        ensures width { result.width ≡ width_of (row_of self).fields }
        ensures narrow { result.width ≤ 16 }
    {
        match self {
            Kind::ForwardAdd => list(FORWARDING, 1, 5),
            Kind::ForwardDelete => list(FORWARDING, 2, 5),
            Kind::ForwardReport => alone(FORWARDING, 3, 0),
            Kind::Enable => list(STORAGE, 1, 2),
            Kind::Disable => list(STORAGE, 2, 2),
            Kind::AddTypes => list(STORAGE, 3, 7),
            Kind::DeleteTypes => list(STORAGE, 4, 7),
            Kind::ReportTypes => alone(STORAGE, 5, 2),
            Kind::StartRange => list(STORAGE, 9, 14),
            Kind::DeleteUpTo => list(STORAGE, 11, 8),
            Kind::Summary => list(STORAGE, 12, 2),
            Kind::OpenFrom => list(STORAGE, 14, 8),
            Kind::Resume => list(STORAGE, 15, 2),
            Kind::Suspend => list(STORAGE, 16, 2),
            Kind::Abort => list(STORAGE, 17, 2),
            Kind::Status => alone(STORAGE, 18, 0),
            Kind::Create => list(STORAGE, 20, 8),
            Kind::Remove => list(STORAGE, 21, 2),
            Kind::Configuration => alone(STORAGE, 22, 0),
            Kind::Copy => list(STORAGE, 24, 16),
            Kind::Resize => list(STORAGE, 25, 6),
            Kind::ToCircular => list(STORAGE, 26, 2),
            Kind::ToBounded => list(STORAGE, 27, 2),
            Kind::Channel => list(STORAGE, 28, 3),
        }
    }

    /// The octets in front of the items: their number, or none.
    pub(crate) fn front(self) -> usize
        ensures front { result ≡ front_of (row_of self) }
        ensures one { result ≤ 1 }
    {
        if self.layout().is_list { 1 } else { 0 }
    }

    /// How many items data says that it has.
    pub(crate) fn count_in(self, body: &[u8]) -> u8
        ensures { result ≡ count_in (row_of self) body.now }
    {
        if !self.layout().is_list {
            1
        } else if body.is_empty() {
            0
        } else {
            body[0]
        }
    }

    /// The place in the data of the item with this number, which counts from 0.
    pub(crate) fn place_of(self, number: usize) -> usize
        requires { number ≤ 32 }
        ensures { result ≡ place_of (row_of self) number }
    {
        self.front() + number * self.layout().width
    }
}
