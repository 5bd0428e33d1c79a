// What holds in every life of a job.
ghost use Rattle.calls.specs.Lives.{LawOfLives};

use costs::Kind;

// Take any kind of cost, any scale over it and any bound that is vouched for: then the law holds in every life of a job.
pub fn law_of_lives<V: Kind>()
    ensures { LawOfLives V.Kind.costs }
{}
