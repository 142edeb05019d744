//! Laws of the constants. Each is the contract of a function without parameters and code.

ghost use Rattle.std.specs.Prelude.{◌≡◌};
ghost use Rattle.setup_model.specs.Place.{document_place, hosts_place, options_place, services_place};
ghost use Rattle.setup_model.specs.declared.limits.TheConstants.{
  MAX_ATTEMPTS,
  MAX_CONCURRENT_CHECKS,
  MAX_DELAY,
  MAX_DEPENDENCIES,
  MAX_DOCUMENT_BYTES,
  MAX_FACTOR,
  MAX_FLAP_THRESHOLD,
  MAX_INTERVAL,
  MAX_INTERVAL_LENGTH,
  MAX_NAME_BYTES,
  MAX_OBJECTS,
  MAX_PARENTS,
  MAX_SPREAD,
};
ghost use Rattle.setup_model.specs.declared.place.TheConstants.Place.{DOCUMENT, HOSTS, OPTIONS, SERVICES};

/// The limits of a setup, as numbers. (Our own profile.)
pub fn limits_of_a_setup()
    ensures document { MAX_DOCUMENT_BYTES ≡ 16777216 }
    ensures objects { MAX_OBJECTS ≡ 4096 }
    ensures parents { MAX_PARENTS ≡ 16384 }
    ensures dependencies { MAX_DEPENDENCIES ≡ 16384 }
    ensures name { MAX_NAME_BYTES ≡ 255 }
    ensures interval { MAX_INTERVAL ≡ 525600 }
    ensures interval_length { MAX_INTERVAL_LENGTH ≡ 86400 }
    ensures attempts { MAX_ATTEMPTS ≡ 255 }
    ensures delay { MAX_DELAY ≡ 86400000 }
    ensures spread { MAX_SPREAD ≡ 525600 }
    ensures factor { MAX_FACTOR ≡ 4096 }
    ensures concurrent_checks { MAX_CONCURRENT_CHECKS ≡ 1000000 }
    ensures flap_threshold { MAX_FLAP_THRESHOLD ≡ 100 }
{}

/// The places of whole parts. Each place is the part after which it is named, without an index.
pub fn places_of_whole_parts()
    ensures document { DOCUMENT ≡ document_place }
    ensures options { OPTIONS ≡ options_place }
    ensures hosts { HOSTS ≡ hosts_place }
    ensures services { SERVICES ≡ services_place }
{}
