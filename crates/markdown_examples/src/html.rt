//! The html of examples.

ghost use Rattle.markdown_examples.specs.Html1.{ArePrinted1};
ghost use Rattle.markdown_examples.specs.Html2.{ArePrinted2};
ghost use Rattle.markdown_examples.specs.Html3.{ArePrinted3};
ghost use Rattle.markdown_examples.specs.Html4.{ArePrinted4};
ghost use Rattle.markdown_examples.specs.Html5.{ArePrinted5};
ghost use Rattle.markdown_examples.specs.Html6.{ArePrinted6};
ghost use Rattle.markdown_examples.specs.Html7.{ArePrinted7};
ghost use Rattle.markdown_examples.specs.Html8.{ArePrinted8};
ghost use Rattle.markdown_examples.specs.Html9.{ArePrinted9};
ghost use Rattle.markdown_examples.specs.Html10.{ArePrinted10};
ghost use Rattle.markdown_examples.specs.Html11.{ArePrinted11};
ghost use Rattle.markdown_examples.specs.Html12.{ArePrinted12};
ghost use Rattle.markdown_examples.specs.Html13.{ArePrinted13};
ghost use Rattle.markdown_examples.specs.Html14.{ArePrinted14};
ghost use Rattle.markdown_examples.specs.Html15.{ArePrinted15};
ghost use Rattle.markdown_examples.specs.Html16.{ArePrinted16};
ghost use Rattle.markdown_examples.specs.Html17.{ArePrinted17};
ghost use Rattle.markdown_examples.specs.Html18.{ArePrinted18};
ghost use Rattle.markdown_examples.specs.Html19.{ArePrinted19};
ghost use Rattle.markdown_examples.specs.Html20.{ArePrinted20};

/// Examples 1 to 25 are printed as they are to be.
#[tactic(auto, using(crate::proofs::Html1::printed1))]
pub fn examples_1()
    ensures { ArePrinted1 }
{}

/// Examples 26 to 50 are printed as they are to be.
#[tactic(auto, using(crate::proofs::Html2::printed2))]
pub fn examples_2()
    ensures { ArePrinted2 }
{}

/// Examples 51 to 75 are printed as they are to be.
#[tactic(auto, using(crate::proofs::Html3::printed3))]
pub fn examples_3()
    ensures { ArePrinted3 }
{}

/// Examples 76 to 100 are printed as they are to be.
#[tactic(auto, using(crate::proofs::Html4::printed4))]
pub fn examples_4()
    ensures { ArePrinted4 }
{}

/// Examples 101 to 125 are printed as they are to be.
#[tactic(auto, using(crate::proofs::Html5::printed5))]
pub fn examples_5()
    ensures { ArePrinted5 }
{}

/// Examples 126 to 150 are printed as they are to be.
#[tactic(auto, using(crate::proofs::Html6::printed6))]
pub fn examples_6()
    ensures { ArePrinted6 }
{}

/// Examples 151 to 175 are printed as they are to be.
#[tactic(auto, using(crate::proofs::Html7::printed7))]
pub fn examples_7()
    ensures { ArePrinted7 }
{}

/// Examples 176 to 200 are printed as they are to be.
#[tactic(auto, using(crate::proofs::Html8::printed8))]
pub fn examples_8()
    ensures { ArePrinted8 }
{}

/// Examples 201 to 225 are printed as they are to be.
#[tactic(auto, using(crate::proofs::Html9::printed9))]
pub fn examples_9()
    ensures { ArePrinted9 }
{}

/// Examples 226 to 250 are printed as they are to be.
#[tactic(auto, using(crate::proofs::Html10::printed10))]
pub fn examples_10()
    ensures { ArePrinted10 }
{}

/// Examples 251 to 275 are printed as they are to be.
#[tactic(auto, using(crate::proofs::Html11::printed11))]
pub fn examples_11()
    ensures { ArePrinted11 }
{}

/// Examples 276 to 300 are printed as they are to be.
#[tactic(auto, using(crate::proofs::Html12::printed12))]
pub fn examples_12()
    ensures { ArePrinted12 }
{}

/// Examples 301 to 325 are printed as they are to be.
#[tactic(auto, using(crate::proofs::Html13::printed13))]
pub fn examples_13()
    ensures { ArePrinted13 }
{}

/// Examples 326 to 350 are printed as they are to be.
#[tactic(auto, using(crate::proofs::Html14::printed14))]
pub fn examples_14()
    ensures { ArePrinted14 }
{}

/// Examples 351 to 375 are printed as they are to be.
#[tactic(auto, using(crate::proofs::Html15::printed15))]
pub fn examples_15()
    ensures { ArePrinted15 }
{}

/// Examples 376 to 400 are printed as they are to be.
#[tactic(auto, using(crate::proofs::Html16::printed16))]
pub fn examples_16()
    ensures { ArePrinted16 }
{}

/// Examples 401 to 425 are printed as they are to be.
#[tactic(auto, using(crate::proofs::Html17::printed17))]
pub fn examples_17()
    ensures { ArePrinted17 }
{}

/// Examples 426 to 450 are printed as they are to be.
#[tactic(auto, using(crate::proofs::Html18::printed18))]
pub fn examples_18()
    ensures { ArePrinted18 }
{}

/// Examples 451 to 475 are printed as they are to be.
#[tactic(auto, using(crate::proofs::Html19::printed19))]
pub fn examples_19()
    ensures { ArePrinted19 }
{}

/// Examples 476 to 485 are printed as they are to be.
#[tactic(auto, using(crate::proofs::Html20::printed20))]
pub fn examples_20()
    ensures { ArePrinted20 }
{}
