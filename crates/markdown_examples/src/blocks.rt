//! The blocks of examples.

ghost use Rattle.markdown_examples.specs.Blocks1.{AreBlocks1};
ghost use Rattle.markdown_examples.specs.Blocks2.{AreBlocks2};
ghost use Rattle.markdown_examples.specs.Blocks3.{AreBlocks3};
ghost use Rattle.markdown_examples.specs.Blocks4.{AreBlocks4};
ghost use Rattle.markdown_examples.specs.Blocks5.{AreBlocks5};
ghost use Rattle.markdown_examples.specs.Blocks6.{AreBlocks6};
ghost use Rattle.markdown_examples.specs.Blocks7.{AreBlocks7};
ghost use Rattle.markdown_examples.specs.Blocks8.{AreBlocks8};
ghost use Rattle.markdown_examples.specs.Blocks9.{AreBlocks9};
ghost use Rattle.markdown_examples.specs.Blocks10.{AreBlocks10};
ghost use Rattle.markdown_examples.specs.Blocks11.{AreBlocks11};
ghost use Rattle.markdown_examples.specs.Blocks12.{AreBlocks12};
ghost use Rattle.markdown_examples.specs.Blocks13.{AreBlocks13};
ghost use Rattle.markdown_examples.specs.Blocks14.{AreBlocks14};
ghost use Rattle.markdown_examples.specs.Blocks15.{AreBlocks15};
ghost use Rattle.markdown_examples.specs.Blocks16.{AreBlocks16};
ghost use Rattle.markdown_examples.specs.Blocks17.{AreBlocks17};
ghost use Rattle.markdown_examples.specs.Blocks18.{AreBlocks18};
ghost use Rattle.markdown_examples.specs.Blocks19.{AreBlocks19};
ghost use Rattle.markdown_examples.specs.Blocks20.{AreBlocks20};

/// What the blocks of examples 1 to 25 are.
#[tactic(auto, using(crate::proofs::Blocks1::blocks1))]
pub fn examples_1()
    ensures { AreBlocks1 }
{}

/// What the blocks of examples 26 to 50 are.
#[tactic(auto, using(crate::proofs::Blocks2::blocks2))]
pub fn examples_2()
    ensures { AreBlocks2 }
{}

/// What the blocks of examples 51 to 75 are.
#[tactic(auto, using(crate::proofs::Blocks3::blocks3))]
pub fn examples_3()
    ensures { AreBlocks3 }
{}

/// What the blocks of examples 76 to 100 are.
#[tactic(auto, using(crate::proofs::Blocks4::blocks4))]
pub fn examples_4()
    ensures { AreBlocks4 }
{}

/// What the blocks of examples 101 to 125 are.
#[tactic(auto, using(crate::proofs::Blocks5::blocks5))]
pub fn examples_5()
    ensures { AreBlocks5 }
{}

/// What the blocks of examples 126 to 150 are.
#[tactic(auto, using(crate::proofs::Blocks6::blocks6))]
pub fn examples_6()
    ensures { AreBlocks6 }
{}

/// What the blocks of examples 151 to 175 are.
#[tactic(auto, using(crate::proofs::Blocks7::blocks7))]
pub fn examples_7()
    ensures { AreBlocks7 }
{}

/// What the blocks of examples 176 to 200 are.
#[tactic(auto, using(crate::proofs::Blocks8::blocks8))]
pub fn examples_8()
    ensures { AreBlocks8 }
{}

/// What the blocks of examples 201 to 225 are.
#[tactic(auto, using(crate::proofs::Blocks9::blocks9))]
pub fn examples_9()
    ensures { AreBlocks9 }
{}

/// What the blocks of examples 226 to 250 are.
#[tactic(auto, using(crate::proofs::Blocks10::blocks10))]
pub fn examples_10()
    ensures { AreBlocks10 }
{}

/// What the blocks of examples 251 to 275 are.
#[tactic(auto, using(crate::proofs::Blocks11::blocks11))]
pub fn examples_11()
    ensures { AreBlocks11 }
{}

/// What the blocks of examples 276 to 300 are.
#[tactic(auto, using(crate::proofs::Blocks12::blocks12))]
pub fn examples_12()
    ensures { AreBlocks12 }
{}

/// What the blocks of examples 301 to 325 are.
#[tactic(auto, using(crate::proofs::Blocks13::blocks13))]
pub fn examples_13()
    ensures { AreBlocks13 }
{}

/// What the blocks of examples 326 to 350 are.
#[tactic(auto, using(crate::proofs::Blocks14::blocks14))]
pub fn examples_14()
    ensures { AreBlocks14 }
{}

/// What the blocks of examples 351 to 375 are.
#[tactic(auto, using(crate::proofs::Blocks15::blocks15))]
pub fn examples_15()
    ensures { AreBlocks15 }
{}

/// What the blocks of examples 376 to 400 are.
#[tactic(auto, using(crate::proofs::Blocks16::blocks16))]
pub fn examples_16()
    ensures { AreBlocks16 }
{}

/// What the blocks of examples 401 to 425 are.
#[tactic(auto, using(crate::proofs::Blocks17::blocks17))]
pub fn examples_17()
    ensures { AreBlocks17 }
{}

/// What the blocks of examples 426 to 450 are.
#[tactic(auto, using(crate::proofs::Blocks18::blocks18))]
pub fn examples_18()
    ensures { AreBlocks18 }
{}

/// What the blocks of examples 451 to 475 are.
#[tactic(auto, using(crate::proofs::Blocks19::blocks19))]
pub fn examples_19()
    ensures { AreBlocks19 }
{}

/// What the blocks of examples 476 to 485 are.
#[tactic(auto, using(crate::proofs::Blocks20::blocks20))]
pub fn examples_20()
    ensures { AreBlocks20 }
{}
