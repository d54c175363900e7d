ghost use Rattle.endings.specs.Decided.{OneReading, FirstOfAll, FramesDecide, ExitDecides, StoppedStays, ShutdownStops, ExitAloneFails, ShutdownEndsWell};

/// What the bytes of an input say of its reading, and of the status of a session that is served over it. It does nothing.
pub fn ending_laws()
    ensures one_reading { OneReading }
    ensures first_of_all { FirstOfAll }
    ensures frames_decide { FramesDecide }
    ensures exit_decides { ExitDecides }
    ensures stopped_stays { StoppedStays }
    ensures shutdown_stops { ShutdownStops }
    ensures exit_alone_fails { ExitAloneFails }
    ensures shutdown_ends_well { ShutdownEndsWell }
{}
