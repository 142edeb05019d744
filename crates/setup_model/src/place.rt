//! The places of faults in a setup document.

use crate::members;

/// A part of the setup document.
#[derive(Clone, Copy, Debug, PartialEq, Eq)]
pub enum Part {
    /// The document itself.
    Document,
    /// Its member `options`.
    Options,
    /// Its member `hosts`.
    Hosts,
    /// Its member `services`.
    Services,
    /// Its member `service_dependencies`.
    ServiceDependencies,
    /// Its member `host_dependencies`.
    HostDependencies,
}

impl Part {
    ghost use Rattle.std.specs.Prelude.{◌≡◌};
    ghost use Rattle.setup_model.specs.Members.{part_name};
    ghost use Rattle.setup_model.specs.Place.{part_of_number, part_number};

    /// The name of the part: that of its member of the document, or `document`.
    pub fn name(self) -> &'static str
        ensures { result.now ≡ part_name self }
    {
        match self {
            Part::Document => "document",
            Part::Options => members::OPTIONS.name,
            Part::Hosts => members::HOSTS.name,
            Part::Services => members::SERVICES.name,
            Part::ServiceDependencies => members::SERVICE_DEPENDENCIES.name,
            Part::HostDependencies => members::HOST_DEPENDENCIES.name,
        }
    }

    /// The number of the part, in the order of the variants. 1 is the document, and 6 is the list of
    /// dependencies between hosts.
    pub fn number(self) -> u32
        ensures { result ≡ part_number self }
    {
        match self {
            Part::Document => 1,
            Part::Options => 2,
            Part::Hosts => 3,
            Part::Services => 4,
            Part::ServiceDependencies => 5,
            Part::HostDependencies => 6,
        }
    }

    /// The part of this number. None for 0 and for a number above 6.
    pub fn from_number(number: u32) -> Option<Part>
        ensures { result ≡ part_of_number number }
    {
        match number {
            1 => Some(Part::Document),
            2 => Some(Part::Options),
            3 => Some(Part::Hosts),
            4 => Some(Part::Services),
            5 => Some(Part::ServiceDependencies),
            6 => Some(Part::HostDependencies),
            _ => None,
        }
    }
}

/// The place of a fault in the document.
#[derive(Clone, Copy, Debug, PartialEq, Eq)]
pub struct Place {
    /// The part at fault.
    pub part: Part,
    /// The index in that part's list, from 0. None if the part itself is at fault.
    pub index: Option<usize>,
}

impl Place {
    ghost use Rattle.std.specs.Prelude.{◌≡◌};
    ghost use Rattle.setup_model.specs.Place.{host_place, service_place, list_place, item_place};

    /// The document as a whole.
    pub const DOCUMENT: Place = Place {
        part: Part::Document,
        index: None,
    };

    /// Its options as a whole.
    pub const OPTIONS: Place = Place {
        part: Part::Options,
        index: None,
    };

    /// Its list of hosts as a whole.
    pub const HOSTS: Place = Place {
        part: Part::Hosts,
        index: None,
    };

    /// Its list of services as a whole.
    pub const SERVICES: Place = Place {
        part: Part::Services,
        index: None,
    };

    /// The host with this index in the document's list.
    pub fn host(index: usize) -> Place
        ensures { result ≡ host_place index }
    {
        Place {
            part: Part::Hosts,
            index: Some(index),
        }
    }

    /// The service with this index in the document's list.
    pub fn service(index: usize) -> Place
        ensures { result ≡ service_place index }
    {
        Place {
            part: Part::Services,
            index: Some(index),
        }
    }

    /// The part as a whole.
    pub fn list(part: Part) -> Place
        ensures { result ≡ list_place part }
    {
        Place { part, index: None }
    }

    /// The item with this index in the part's list.
    pub fn item(part: Part, index: usize) -> Place
        ensures { result ≡ item_place part index }
    {
        Place {
            part,
            index: Some(index),
        }
    }
}
