//! The sections that are shown of examples, and their links.

ghost use Rattle.markdown_examples.specs.Sections1.{AreSections1};
ghost use Rattle.markdown_examples.specs.Sections2.{AreSections2};
ghost use Rattle.markdown_examples.specs.Sections3.{AreSections3};
ghost use Rattle.markdown_examples.specs.Sections4.{AreSections4};
ghost use Rattle.markdown_examples.specs.Sections5.{AreSections5};
ghost use Rattle.markdown_examples.specs.Sections6.{AreSections6};
ghost use Rattle.markdown_examples.specs.Sections7.{AreSections7};
ghost use Rattle.markdown_examples.specs.Sections8.{AreSections8};
ghost use Rattle.markdown_examples.specs.Sections9.{AreSections9};
ghost use Rattle.markdown_examples.specs.Sections10.{AreSections10};
ghost use Rattle.markdown_examples.specs.Sections11.{AreSections11};
ghost use Rattle.markdown_examples.specs.Sections12.{AreSections12};
ghost use Rattle.markdown_examples.specs.Sections13.{AreSections13};
ghost use Rattle.markdown_examples.specs.Sections14.{AreSections14};
ghost use Rattle.markdown_examples.specs.Sections15.{AreSections15};
ghost use Rattle.markdown_examples.specs.Sections16.{AreSections16};
ghost use Rattle.markdown_examples.specs.Sections17.{AreSections17};
ghost use Rattle.markdown_examples.specs.Sections18.{AreSections18};
ghost use Rattle.markdown_examples.specs.Sections19.{AreSections19};
ghost use Rattle.markdown_examples.specs.Sections20.{AreSections20};

/// The sections and links of examples 1 to 25.
#[tactic(auto, using(crate::proofs::Sections1::sections1))]
pub fn examples_1()
    ensures { AreSections1 }
{}

/// The sections and links of examples 26 to 50.
#[tactic(auto, using(crate::proofs::Sections2::sections2))]
pub fn examples_2()
    ensures { AreSections2 }
{}

/// The sections and links of examples 51 to 75.
#[tactic(auto, using(crate::proofs::Sections3::sections3))]
pub fn examples_3()
    ensures { AreSections3 }
{}

/// The sections and links of examples 76 to 100.
#[tactic(auto, using(crate::proofs::Sections4::sections4))]
pub fn examples_4()
    ensures { AreSections4 }
{}

/// The sections and links of examples 101 to 125.
#[tactic(auto, using(crate::proofs::Sections5::sections5))]
pub fn examples_5()
    ensures { AreSections5 }
{}

/// The sections and links of examples 126 to 150.
#[tactic(auto, using(crate::proofs::Sections6::sections6))]
pub fn examples_6()
    ensures { AreSections6 }
{}

/// The sections and links of examples 151 to 175.
#[tactic(auto, using(crate::proofs::Sections7::sections7))]
pub fn examples_7()
    ensures { AreSections7 }
{}

/// The sections and links of examples 176 to 200.
#[tactic(auto, using(crate::proofs::Sections8::sections8))]
pub fn examples_8()
    ensures { AreSections8 }
{}

/// The sections and links of examples 201 to 225.
#[tactic(auto, using(crate::proofs::Sections9::sections9))]
pub fn examples_9()
    ensures { AreSections9 }
{}

/// The sections and links of examples 226 to 250.
#[tactic(auto, using(crate::proofs::Sections10::sections10))]
pub fn examples_10()
    ensures { AreSections10 }
{}

/// The sections and links of examples 251 to 275.
#[tactic(auto, using(crate::proofs::Sections11::sections11))]
pub fn examples_11()
    ensures { AreSections11 }
{}

/// The sections and links of examples 276 to 300.
#[tactic(auto, using(crate::proofs::Sections12::sections12))]
pub fn examples_12()
    ensures { AreSections12 }
{}

/// The sections and links of examples 301 to 325.
#[tactic(auto, using(crate::proofs::Sections13::sections13))]
pub fn examples_13()
    ensures { AreSections13 }
{}

/// The sections and links of examples 326 to 350.
#[tactic(auto, using(crate::proofs::Sections14::sections14))]
pub fn examples_14()
    ensures { AreSections14 }
{}

/// The sections and links of examples 351 to 375.
#[tactic(auto, using(crate::proofs::Sections15::sections15))]
pub fn examples_15()
    ensures { AreSections15 }
{}

/// The sections and links of examples 376 to 400.
#[tactic(auto, using(crate::proofs::Sections16::sections16))]
pub fn examples_16()
    ensures { AreSections16 }
{}

/// The sections and links of examples 401 to 425.
#[tactic(auto, using(crate::proofs::Sections17::sections17))]
pub fn examples_17()
    ensures { AreSections17 }
{}

/// The sections and links of examples 426 to 450.
#[tactic(auto, using(crate::proofs::Sections18::sections18))]
pub fn examples_18()
    ensures { AreSections18 }
{}

/// The sections and links of examples 451 to 475.
#[tactic(auto, using(crate::proofs::Sections19::sections19))]
pub fn examples_19()
    ensures { AreSections19 }
{}

/// The sections and links of examples 476 to 485.
#[tactic(auto, using(crate::proofs::Sections20::sections20))]
pub fn examples_20()
    ensures { AreSections20 }
{}
