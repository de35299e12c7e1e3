ghost use Rattle.proxy_examples.specs.FullSpace.{FullSpaceIsRefused};

pub fn a_full_space_is_refused()
    ensures { FullSpaceIsRefused }
{}
